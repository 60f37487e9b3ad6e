// The record that waits is left behind, if it is to be.
ghost use Rattle.feed_merge.specs.FeedStandsFor.{waiting_of};
ghost use Rattle.feed_merge.specs.Skips.{CanBeLeft, SkipsIf};

use crate::feed::FrameFeed;

/// Leaves the record that waits behind, if it is to be left.
pub fn skip_if(feed: &mut FrameFeed<'_>, leaves: bool)
    requires can { CanBeLeft leaves (waiting_of feed.old) }
    ensures { SkipsIf leaves feed.old feed.new }
{
    if leaves {
        feed.skip();
    }
}
