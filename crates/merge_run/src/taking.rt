// What becomes of the records that wait.
ghost use Rattle.std.specs.Prelude.{◌≡◌, is_some};
ghost use Rattle.feed_merge.specs.Picking.{picked};
ghost use Rattle.feed_merge.specs.declared.seen.Feed.TheVariants.{A, B};
ghost use Rattle.feed_merge.specs.FeedStandsFor.{waiting_of};
ghost use Rattle.feed_merge.specs.Skips.{CanBeLeft, SkipsIf};
ghost use Rattle.merge_run.specs.Taking.{is_same, is_from, leaves, feed_in};
ghost use Rattle.feed_merge.specs.Seen.{seen_of};

use feed_merge::{Feed, FrameFeed, Pick, Seen, pick, skip_if};
use frame_groups::Waiting;

// A record that waits, as it is seen.
fn seen(waiting: Option<Waiting>) -> Option<Seen>
    ensures { result ≡ seen_of waiting }
{
    match waiting {
        Some(record) => Some(Seen {
            frame: record.frame,
            whole: record.mute.is_none(),
        }),
        None => None,
    }
}

/// What becomes of the records that wait.
pub fn pick_next(a: &FrameFeed<'_>, b: &FrameFeed<'_>) -> Pick
    ensures { result ≡ picked (seen_of (waiting_of a.now)) (seen_of (waiting_of b.now)) }
{
    pick(seen(a.waiting()), seen(b.waiting()))
}

/// Whether a frame is picked.
pub fn is_picked(source: Option<Feed>) -> bool
    ensures { result ≡ is_some source }
{
    source.is_some()
}

/// Whether a feed has the frame of a number whole, for people.
pub fn is_whole_in(feed: &FrameFeed<'_>, number: u64) -> bool {
    match feed.waiting() {
        Some(record) => record.frame == number && record.mute.is_none(),
        None => false,
    }
}

// Whether two are the same feed.
fn is_same(source: Feed, feed: Feed) -> bool
    ensures { result ≡ is_same source feed }
{
    match (source, feed) {
        (Feed::A, Feed::A) => true,
        (Feed::A, Feed::B) => false,
        (Feed::B, Feed::A) => false,
        (Feed::B, Feed::B) => true,
    }
}

// Whether a frame comes from a feed.
fn is_from(feed: Feed, source: Option<Feed>) -> bool
    ensures { result ≡ is_from feed source }
{
    match source {
        Some(source) => is_same(source, feed),
        None => false,
    }
}

// Whether what a feed has of a number is left behind at once.
fn leaves(feed: Feed, has: bool, source: Option<Feed>) -> bool
    ensures { result ≡ leaves feed has source }
{
    has && !is_from(feed, source)
}

/// The feed that a frame comes from.
pub fn source_of<'f, 'p>(
    a: &'f FrameFeed<'p>,
    b: &'f FrameFeed<'p>,
    source: Feed,
) -> &'f FrameFeed<'p>
    ensures { result.now ≡ feed_in source a.now b.now }
{
    match source {
        Feed::A => a,
        Feed::B => b,
    }
}

/// Leaves the records of a number behind, but for the one whose frame is picked.
pub fn skip_others(a: &mut FrameFeed<'_>, b: &mut FrameFeed<'_>, pick: Pick)
    requires can_a { CanBeLeft pick.leave_a (waiting_of a.old) }
    requires can_b { CanBeLeft pick.leave_b (waiting_of b.old) }
    ensures a { SkipsIf (leaves A pick.leave_a pick.source) a.old a.new }
    ensures b { SkipsIf (leaves B pick.leave_b pick.source) b.old b.new }
{
    skip_if(a, leaves(Feed::A, pick.leave_a, pick.source));
    skip_if(b, leaves(Feed::B, pick.leave_b, pick.source));
}

/// Leaves the record behind whose frame was sent.
pub fn skip_source(a: &mut FrameFeed<'_>, b: &mut FrameFeed<'_>, source: Feed)
    requires can_a { CanBeLeft (is_same source A) (waiting_of a.old) }
    requires can_b { CanBeLeft (is_same source B) (waiting_of b.old) }
    ensures a { SkipsIf (is_same source A) a.old a.new }
    ensures b { SkipsIf (is_same source B) b.old b.new }
{
    skip_if(a, is_same(source, Feed::A));
    skip_if(b, is_same(source, Feed::B));
}
