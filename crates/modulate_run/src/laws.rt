// Laws of the definitions. Their functions do nothing.
ghost use Rattle.modulate_run.specs.Laws.{OneRun, RunEnds};

/// A file that is not too long decides how a run over it ends, if nothing outside fails.
pub fn one_run_law()
    ensures { OneRun }
{}

/// A run over a file has an ending, if nothing outside fails and the file is not too long.
pub fn run_ends_law()
    ensures { RunEnds }
{}
