// How many packets a frame has at most.
ghost use Rattle.std.specs.Prelude.{◌<◌, ◌^◌, ℕ, length};
ghost use Rattle.frame_writer.specs.Left.{CanBeSent};
ghost use Rattle.spaced_frames.specs.StandsFor.{bodies_as, content_of};

use frame_writer::PoolFrame;
use plp_config::Plan;

// No list of a frame has 2^32 blocks.
pub(crate) fn few_blocks(plan: &Plan, frame: &PoolFrame<'_>)
    requires { CanBeSent plan.now frame.now }
    ensures { (n : ℕ) → length (bodies_as plan.now n (content_of frame.now)) < 2 ^ 41 }
{
    plan.rules_law();
    for list in 0..plan.config().plps.len() as u32 {
        let _ = frame.blocks.count(list);
    }
}
