// Laws of the definitions. Their functions do nothing.
ghost use Rattle.frame_groups.specs.TestLaws.{MapPasses, PreValues, ConfTold, PartsTold, TestsAreTallied, TallyGrows};
ghost use Rattle.frame_groups.specs.TestLaws.{FrameNamed, TestsAlone};

use cell_map::map_law;
use l1_signal::{conf_law, dyn_law, pre_law};
use plp_config::{emission_law, interleaving_law};

/// The test of a shape says whether it passes, of a plan.
pub fn map_test_law()
    ensures { MapPasses }
{
    map_law();
}

/// The test of an L1-current says whether its parts spell the configuration's values, and those of the frame.
pub fn parts_law()
    ensures pre { PreValues }
    ensures conf { ConfTold }
    ensures whole { PartsTold }
{
    pre_law();
    conf_law();
    dyn_law();
}

/// The tests are those of a tally, which each packet changes by itself.
pub fn tally_law()
    ensures tests { TestsAreTallied }
    ensures grows { TallyGrows }
{}

/// If every interleaving frame is carried by one frame, the groups before decide nothing.
pub fn alone_law()
    ensures { TestsAlone }
{
    interleaving_law();
}

/// The frame that a group names is the one with the emission of its first timestamp and with its key.
pub fn named_law()
    ensures { FrameNamed }
{
    emission_law();
}
