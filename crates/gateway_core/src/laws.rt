// Laws of the definitions. Their functions do nothing.
ghost use Rattle.gateway_core.specs.Laws.{NotYetLast, FrontsGrow, UnitsLaw, FrontsDecided, LastIsAll, WaitsThreeFrames};

use l1_signal::{post_law, pre_law};
use mode_adapt::blocks_law;
use plp_config::{length_law, run_length_law, slot_time_law};
use t2mi_packet::written_law;
use t2mi_stream::complete_law;

/// A run is three frames longer at least than the next frame when all packets that it wants of an input were there. So
/// a caller that ends each input where it ends, and begins no frame once the last was begun, begins no frame behind the
/// run.
pub fn not_yet_last_law()
    ensures { NotYetLast }
{
    length_law();
    run_length_law();
    slot_time_law();
}

/// The packets of fewer frames are the first ones, and follow from the packets of the slots that are over when the last
/// of these frames begins.
pub fn front_law()
    ensures grow { FrontsGrow }
    ensures decided { FrontsDecided }
{
    blocks_law();
    length_law();
    slot_time_law();
}

/// Whatever frames follow, the complete units of the frames begun are the first ones of all.
pub fn units_law()
    ensures { UnitsLaw }
{
    complete_law();
}

/// When the last frame was begun, the packets of the frames begun are those of the run.
pub fn last_law()
    ensures { LastIsAll }
{}

/// The units that are complete when a frame was begun carry the first byte of each frame but that one and the one
/// before it.
pub fn ahead_law()
    ensures { WaitsThreeFrames }
{
    complete_law();
    written_law();
    pre_law();
    post_law();
}
