// Laws of the definitions. Their functions do nothing.
ghost use Rattle.file_run.specs.DeskLaws.{AppendsNone, AppendsThen, CreatesEmpty};

/// What was appended to a file by one call after another was appended as one.
pub fn appends_law()
    ensures none { AppendsNone }
    ensures then { AppendsThen }
{}

/// A file that was created is empty, and no other file is another.
pub fn creates_law()
    ensures { CreatesEmpty }
{}
