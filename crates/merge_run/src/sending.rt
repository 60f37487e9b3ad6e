// The frame that waits in a feed, sent again.
ghost use Rattle.std.specs.Prelude.{◌≡◌, ◌<◌, ◌≤◌, false, true, length, take, ◌+◌};
ghost use Rattle.plp_config.specs.declared.moment.TheConstants.{MOST_FRAMES};
ghost use Rattle.ts_packet.specs.declared.sizes.TheConstants.{SIZE};
ghost use Rattle.frame_writer.specs.declared.frame.PoolFrame.{PoolFrame};
ghost use Rattle.feed_merge.specs.Frames.{IsFrameOf};
ghost use Rattle.feed_merge.specs.FeedStandsFor.{config_of as network_of, waiting_of, is_whole};
ghost use Rattle.feed_merge.specs.StandsFor.{GivesUnits, config_of, has_unit, has_finished};
ghost use Rattle.merge_run.specs.Sending.{Begins};

use feed_merge::{FrameFeed, Merger};
use modulator::due_records_law;
use stream_laws::shown_law;

/// Begins the frame that waits in a feed of the same network.
pub fn begin_frame(merger: &mut Merger<'_>, feed: &FrameFeed<'_>, number: u64)
    requires whole { is_whole (waiting_of feed.now) ≡ true }
    requires network { ∥ network_of feed.now ≡ config_of merger.old ∥₁ }
    requires early { number < MOST_FRAMES }
    requires given { has_unit merger.old ≡ false }
    requires open { has_finished merger.old ≡ false }
    ensures { Begins merger.old merger.new feed.now number }
{
    shown_law();
    due_records_law();
    let frame = feed.frame();
    merger.frame(number, &frame);
}

/// Gives units of the frame that waits in a feed of the same network, as [`Merger::give`] does.
pub fn give_frame(merger: &mut Merger<'_>, feed: &FrameFeed<'_>, out: &mut [u8]) -> (usize, bool)
    requires whole { is_whole (waiting_of feed.now) ≡ true }
    requires network { ∥ network_of feed.now ≡ config_of merger.old ∥₁ }
    requires room { SIZE ≤ length out.old }
    ensures gives { (frame : PoolFrame) × IsFrameOf feed.now frame
        × GivesUnits merger.old merger.new frame result.1 (take result.0 out.new) }
    ensures count { result.0 ≤ length out.old }
    ensures full { result.1 ≡ true → length out.old < result.0 + SIZE }
    ensures size { length out.new ≡ length out.old }
{
    let frame = feed.frame();
    merger.give(&frame, out)
}
