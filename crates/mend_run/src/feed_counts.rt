// Which feeds have the frames whole, counted for people.
ghost use Rattle.std.specs.Prelude.{◌<◌, ◌^◌};
ghost use Rattle.mended_frames.specs.StandsFor.{AreOf};

use feed_events::EventFeed;
use file_run::FeedCounts;
use frame_weave::MarkedGroup;
use mended_frames::Mender;
use ports::MOST_FEEDS;

/// Counts a frame, above those that were made, by the feeds in which it is next and whole.
pub fn count_frame<'p>(
    counts: &mut FeedCounts,
    mender: &Mender<'p>,
    feeds: &[EventFeed<MarkedGroup<'p>>],
    number: u64,
)
    requires small { number < 2 ^ 32 }
    requires of { AreOf mender.now.plan.now feeds.now }
{
    let mut has = [false; MOST_FEEDS];
    for feed in 0..feeds.len().min(MOST_FEEDS) {
        has[feed] = mender.is_whole(&feeds[feed], number);
    }
    counts.add(number, &has);
}
