// Laws of the definitions. Their functions do nothing.
ghost use Rattle.compare_run.specs.Laws.{OneRun, RunEnds};

/// Two files that are not too long decide how a run over them ends, if nothing outside fails.
pub fn one_run_law()
    ensures { OneRun }
{}

/// A run over two files has an ending, if nothing outside fails and neither file is too long.
pub fn run_ends_law()
    ensures { RunEnds }
{}
