// Which packet of a frame comes next.
ghost use Rattle.std.specs.Prelude.{◌≡◌};
ghost use Rattle.frame_writer.specs.FirstPacket.{first_step};

use plp_config::Plan;

/// Which packet of a frame comes next: the timestamp, the L1-current, a block if one is left, or none.
#[derive(Clone, Copy, Debug, PartialEq, Eq)]
pub enum FrameStep {
    Stamp,
    Signal,
    Blocks,
    Over,
}

/// Which packet of a frame comes first: a superframe begins with a timestamp (ETSI TS 102 773, clause 5.2.7).
pub fn first_step(plan: &Plan, frame: u64) -> FrameStep
    ensures { result ≡ first_step plan.now frame }
{
    if plan.frame_idx(frame) == 0 {
        FrameStep::Stamp
    } else {
        FrameStep::Signal
    }
}
