// Laws of the definitions. Their functions do nothing.
ghost use Rattle.stream_laws.specs.FrameLaws.{SentAreFrames, FrameCarries, FramesAreStream, TestsMeet, WrittenIsFrame};
ghost use Rattle.stream_laws.specs.FrameLaws.{KeptIsHonest, WholeArrives, WholeComes};

use crate::damage_laws::whole_law;
use crate::unit_laws::kept_law;
use bb_frame::bit_counts_law;
use bit_slice::crc32_law;
use cell_map::shape_law;
use frame_groups::{map_test_law, named_law, parts_law};
use l1_signal::{conf_law, dyn_law, post_law, pre_law};
use plp_config::{block_law, emission_law, interleaving_law, spread_law};
use record_laws::{fit_law, record_law};
use scheduler::{field_law, order_law};
use t2mi_packet::{spell_law, written_law};

/// The packets of a run are sent frame by frame, and those of a frame carry what it has.
pub fn sent_law()
    ensures frames { SentAreFrames }
    ensures carries { FrameCarries }
{}

/// The bytes of a plan's frames read as their packets.
pub fn stream_law()
    ensures { FramesAreStream }
{
    sent_law();
    crc32_law();
    spell_law();
    written_law();
    emission_law();
    pre_law();
    post_law();
    bit_counts_law();
    block_law();
}

/// A run of which all units from one on are kept is honest.
pub fn undamaged_law()
    ensures { KeptIsHonest }
{
    stream_law();
    kept_law();
}

/// If all units of a run are kept, what is received is what the gateway writes, and the records that must come are the
/// run's frames.
pub fn run_law()
    ensures arrives { WholeArrives }
    ensures records { WholeComes }
{
    stream_law();
    t2mi_stream::undamaged_law();
    record_law();
}

/// The six tests make of a run what they must, whatever survives.
pub fn tests_law()
    ensures { TestsMeet }
{
    sent_law();
    whole_law();
    named_law();
    map_test_law();
    parts_law();
    shape_law();
    pre_law();
    conf_law();
    dyn_law();
    bit_counts_law();
    fit_law();
    block_law();
    spread_law();
    interleaving_law();
    field_law();
    order_law();
}

/// What is written of the packets of a frame is the frame.
pub fn frame_law()
    ensures { WrittenIsFrame }
{
    sent_law();
    dyn_law();
    bit_counts_law();
    fit_law();
    block_law();
    field_law();
}
