// Laws of the definitions. Their functions do nothing.
ghost use Rattle.swap_run.specs.Laws.{OneRun, RunEnds};

use plp_config::{length_law, slot_time_law};

/// Two files that are not too long decide how a run over them ends, if nothing outside fails.
pub fn one_run_law()
    ensures { OneRun }
{
    slot_time_law();
    length_law();
}

/// A run over two files has an ending, if nothing outside fails and neither file is too long.
pub fn run_ends_law()
    ensures { RunEnds }
{
    slot_time_law();
    length_law();
}
