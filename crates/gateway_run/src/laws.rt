// Laws of the definitions. Their functions do nothing.
ghost use Rattle.gateway_run.specs.Laws.{OneRun, RunEnds};

use common_plp::split_law;
use gateway_core::not_yet_last_law;

/// Files of which none is too long decide how a run over them ends, if nothing outside fails.
pub fn one_run_law()
    ensures { OneRun }
{}

/// A run of a plan over files has an ending, if nothing outside fails and no file is too long.
pub fn run_ends_law()
    ensures { RunEnds }
{
    not_yet_last_law();
    split_law();
}
