// A superframe of which a timestamp alone is sent.
ghost use Rattle.std.specs.Prelude.{◌≡◌, true};
ghost use Rattle.plp_config.specs.declared.moment.TheConstants.{MOST_FRAMES};
ghost use Rattle.spaced_frames.specs.Spaced.{spacer_left};

use bit_slice::FixedBits;
use frame_writer::{FrameSource, write_timestamp};
use plp_config::{Plan, SUPERFRAME_PERIOD};
use t2mi_packet::LARGEST;

/// By so many superframes a frame may be behind the one before it: superframe_idx counts 16 superframes (ETSI TS 102
/// 773, clause
/// 5.1), and who finds it by that knows it then, whether or not it begins its superframe.
pub const FARTHEST: u64 = 14;

/// The timestamp of a superframe, by the number of its first frame: sent or not.
#[derive(Clone, Copy)]
pub struct Spacer {
    pub number: u64,
    pub over: bool,
}

impl FrameSource<()> for Spacer {
    ghost use Rattle.std.specs.Prelude.{◌≡◌, ◌<◌, true};
    ghost use Rattle.plp_config.specs.declared.moment.TheConstants.{MOST_FRAMES};
    ghost use Rattle.spaced_frames.specs.Spaced.{spacer_left};

    ghost number = { λ s. s.number };

    ghost left = { λ s _ c. spacer_left c s };

    ghost IsFor = { λ s _ _. s.number < MOST_FRAMES };

    ghost IsOver = { λ s. s.over ≡ true };

    ghost kept = { λ _ _. tt };

    fn build(
        &mut self,
        _frame: &(),
        plan: &Plan,
        packet_count: u8,
        out: &mut FixedBits<LARGEST>,
    ) -> bool {
        if self.over {
            return false;
        }
        write_timestamp(out, plan, packet_count, self.number);
        self.over = true;
        true
    }
}
