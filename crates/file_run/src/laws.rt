// Laws of the definitions. Their functions do nothing.
ghost use Rattle.file_run.specs.Laws.{EventsTell, FirstIsTold};

/// What one event more tells of inputs and of the output.
pub fn events_law()
    ensures { EventsTell }
{}

/// No fault of reading is told if writing failed first.
pub fn faults_law()
    ensures { FirstIsTold }
{}
