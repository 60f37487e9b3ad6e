// Laws of the definitions. Their functions do nothing.
ghost use Rattle.plp_receiver.specs.LaterBlocks.{CompleteByBlocks};
ghost use Rattle.plp_receiver.specs.SlotLaws.{ReadbackFront, OneFrame};

use plp_config::release_law;

/// Readback of the first records is a prefix of Readback of more.
pub fn slots_readback_law()
    ensures { ReadbackFront }
{
    release_law();
}

/// If an interleaving frame is one frame, Readback goes by frames alone.
pub fn one_frame_law()
    ensures { OneFrame }
{}

/// A user packet is complete exactly if each later block that begins before it ends has its first user packet where it
/// ends, or has none and ends by there.
pub fn complete_law()
    ensures { CompleteByBlocks }
{}
