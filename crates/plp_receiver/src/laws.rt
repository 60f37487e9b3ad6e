// Laws of the definitions. Their functions do nothing.
ghost use Rattle.plp_receiver.specs.Laws.{ReadbackOnce, ReadbackFront, OneFrame, AllCome};

use crate::slot_laws::slots_readback_law as slots_law;
use bb_frame::bit_counts_law;
use plp_config::{block_law, length_law, spread_law};

/// A PLP is given back one list of packets, and of the first records a prefix of that of more.
pub fn readback_law()
    ensures once { ReadbackOnce }
    ensures front { ReadbackFront }
{
    bit_counts_law();
    length_law();
    spread_law();
    block_law();
    slots_law();
}

/// With spread 1 what records tell of a PLP is what each of them tells by itself; and if all spreads are 1, all blocks
/// that a frame's shape tells come with it.
pub fn alone_law()
    ensures records { OneFrame }
    ensures blocks { AllCome }
{}
