// Laws of the definitions. Their functions do nothing.
ghost use Rattle.receive_run.specs.Laws.{OneRun, RunEnds, OneOutput};
ghost use Rattle.receive_run.specs.JoinedLaws as joined;

use bb_frame::{bit_counts_law, no_refusal_law, spelled_or_refused_law};
use common_plp::groups_law;
use plp_receiver::joined_law;
use site_frame::{place_law, reading_law, refusal_law};

/// A file that is not too long decides how a run over it ends, if nothing outside fails: that of a PLP alone, and one
/// that is joined with another.
pub fn one_run_law()
    ensures joined { joined.OneRun }
    ensures alone { OneRun }
{
    reading_law();
    refusal_law();
    place_law();
    joined_law();
}

/// A run over a file has an ending, if nothing outside fails and the file is not too long.
pub fn run_ends_law()
    ensures joined { joined.RunEnds }
    ensures alone { RunEnds }
{
    refusal_law();
    bit_counts_law();
    no_refusal_law();
    spelled_or_refused_law();
    groups_law();
}

/// A file that is nothing but records of successive frames decides the output, and the slots that are told.
pub fn one_output_law()
    ensures joined { joined.OneOutput }
    ensures alone { OneOutput }
{
    reading_law();
    refusal_law();
    place_law();
    joined_law();
}
