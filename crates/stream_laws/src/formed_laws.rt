// Laws of the definitions. Their functions do nothing.
ghost use Rattle.stream_laws.specs.Carrying.{FrameComesBack};
ghost use Rattle.stream_laws.specs.FormedLaws.{FramesAreFormed, ShownIsSent};

use bb_frame::{bit_counts_law, scramble_twice_law};
use frame_groups::{map_test_law, named_law, parts_law};
use l1_signal::{conf_law, dyn_law, post_law, pre_law};
use modulator::due_records_law;

/// Every frame that is due by the bytes of a stream is formed for its number.
pub fn formed_law()
    ensures { FramesAreFormed }
{
    due_records_law();
    map_test_law();
    parts_law();
    pre_law();
    conf_law();
    dyn_law();
    post_law();
    bit_counts_law();
}

/// If packets carry what the record of a frame says that a modulator wrote, that frame comes back of them, behind
/// groups that have the blocks of the interleaving frames that began before it; behind other groups a packet is
/// missing.
pub fn back_law()
    ensures { FrameComesBack }
{
    scramble_twice_law();
    named_law();
    parts_law();
    pre_law();
    conf_law();
    dyn_law();
    post_law();
    bit_counts_law();
}

/// What a group shows of a frame that passes is what the packets of its record carry.
pub fn shown_law()
    ensures { ShownIsSent }
{
    scramble_twice_law();
    parts_law();
    pre_law();
    conf_law();
    dyn_law();
    post_law();
    bit_counts_law();
}
