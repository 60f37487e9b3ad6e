// Laws of frames that are held. Their functions do nothing.
ghost use Rattle.region_swap.specs.Laws.{HeldIsSwapped, HeldTells};

use bb_frame::{bit_counts_law, scramble_twice_law};
use frame_groups::{map_test_law, parts_law};
use l1_signal::{conf_law, dyn_law, post_law, pre_law};
use plp_config::block_law;

/// The dynamic part of a frame that is held tells how many blocks each PLP has.
pub fn told_law()
    ensures { HeldTells }
{
    map_test_law();
}

/// A frame that is held is sent with a PLP replaced as its record says.
pub fn swapped_law()
    ensures { HeldIsSwapped }
{
    scramble_twice_law();
    bit_counts_law();
    block_law();
    parts_law();
    pre_law();
    conf_law();
    dyn_law();
    post_law();
}
