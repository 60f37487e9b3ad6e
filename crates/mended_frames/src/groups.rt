// The groups of feeds.
ghost use Rattle.std.specs.Prelude.{◌≡◌, ◌<◌, ◌^◌, ◌&&◌, ◌++◌, ◌∷◌, List, [], Some, None, true, false, find, length};
ghost use Rattle.std.specs.Prelude.{IfSome, IfNone, slice_get};
ghost use Rattle.frame_groups.specs.Groups.{Group};
ghost use Rattle.frame_groups.specs.Modulated.{Numbered};
ghost use Rattle.frame_groups.specs.Sequenced.{IsAbove};
ghost use Rattle.feed_events.specs.StandsFor.{head_of, group_of};
ghost use Rattle.frame_weave.specs.Weaves.{Weaves, IsOwn};
ghost use Rattle.frame_weave.specs.Holds.{HoldsMarked};
ghost use Rattle.open_group.specs.FrameBytes.{is_frame};
ghost use Rattle.open_group.specs.HoldsPast.{AreSized, HoldsPast};
ghost use Rattle.mended_frames.specs.Choosing.{Chooses};
ghost use Rattle.mended_frames.specs.Mended.{passes};
ghost use Rattle.mended_frames.specs.StandsFor.{Feed, is_at, HaveGroups, AreOf, pooled_of};

use feed_events::{EventFeed, Head};
use frame_weave::{MarkedGroup, Weaver};
use open_group::HeldPast;
use plp_config::Plan;

/// Whether packets of a frame are next in a feed.
pub(crate) fn is_at(number: u64, head: Head) -> bool
    ensures { result ≡ is_at number head }
{
    match head {
        Head::Frame(next) => next == number,
        Head::Unknown | Head::Silent | Head::Over => false,
    }
}

/// Whether packets of a frame are next in a feed, and are that frame by themselves, behind the frames that were made.
pub(crate) fn is_whole(feed: &EventFeed<MarkedGroup<'_>>, past: &HeldPast, number: u64) -> bool
    requires small { number < 2 ^ 32 }
    requires sized { AreSized (pooled_of feed.now).network past.now }
    ensures value { (own before : List Numbered) (h : Group) → HoldsMarked (group_of feed.now) own (Some h)
        → HoldsPast (pooled_of feed.now).network past.now before → IsAbove before number
        → result ≡ (is_at number (head_of feed.now) && passes (pooled_of feed.now).network before number h) }
    ensures there { result ≡ true → is_at number (head_of feed.now) ≡ true }
    ensures frame { result ≡ true → is_frame (pooled_of feed.now) ≡ true }
{
    if !is_at(number, feed.head()) {
        return false;
    }
    feed.group().group().fault_behind(past, number).is_none()
}

/// The first feed whose packets of a frame are that frame by themselves, behind the frames that were made.
pub(crate) fn whole_feed(
    plan: &Plan,
    feeds: &[EventFeed<MarkedGroup<'_>>],
    past: &HeldPast,
    number: u64,
) -> Option<usize>
    requires small { number < 2 ^ 32 }
    requires of { AreOf plan.now feeds.now }
    requires sized { AreSized plan.now past.now }
    ensures inside { IfSome result (λ i. i < length feeds.now) }
    ensures next { IfSome result (λ i. (f : Feed) → slice_get feeds.now i ≡ Some f → is_at number (head_of f) ≡ true) }
    ensures frame { IfSome result (λ i. (f : Feed) → slice_get feeds.now i ≡ Some f → is_frame (pooled_of f) ≡ true) }
    ensures some { IfSome result (λ i. (gs : List Group) (before : List Numbered) → HaveGroups number feeds.now gs
        → HoldsPast plan.now past.now before → IsAbove before number → Chooses plan.now before number feeds.now gs i) }
    ensures none { IfNone result ((gs : List Group) (before : List Numbered) → HaveGroups number feeds.now gs
        → HoldsPast plan.now past.now before → IsAbove before number → find (passes plan.now before number) gs ≡ None) }
{
    for i in 0..feeds.len() {
        if is_whole(&feeds[i], past, number) {
            return Some(i);
        }
    }
    None
}

// Looks at the packets of a frame in a feed, if they are next there.
fn look_one<'p>(weaver: &mut Weaver<'p>, feed: &EventFeed<MarkedGroup<'p>>, number: u64)
    requires of { (pooled_of feed.now).network ≡ weaver.old.plan.now }
    ensures takes { is_at number (head_of feed.now) ≡ true → (own : List Numbered) (h : Group) (seen : List Group)
        → HoldsMarked (group_of feed.now) own (Some h) → Weaves weaver.old number seen []
        → Weaves weaver.new number (seen ++ h ∷ []) [] }
    ensures stays { is_at number (head_of feed.now) ≡ false → weaver.new ≡ weaver.old }
    ensures own { IsOwn weaver.old → IsOwn weaver.new }
    ensures plan { weaver.new.plan.now ≡ weaver.old.plan.now }
{
    if is_at(number, feed.head()) {
        weaver.look(feed.group());
    }
}

// Places their blocks, if they are next there.
fn place_one<'p>(weaver: &mut Weaver<'p>, feed: &EventFeed<MarkedGroup<'p>>, number: u64)
    requires of { (pooled_of feed.now).network ≡ weaver.old.plan.now }
    ensures takes { is_at number (head_of feed.now) ≡ true → (own : List Numbered) (h : Group) (gs seen : List Group)
        → HoldsMarked (group_of feed.now) own (Some h) → Weaves weaver.old number gs seen
        → Weaves weaver.new number gs (seen ++ h ∷ []) }
    ensures stays { is_at number (head_of feed.now) ≡ false → weaver.new ≡ weaver.old }
    ensures own { IsOwn weaver.old → IsOwn weaver.new }
    ensures plan { weaver.new.plan.now ≡ weaver.old.plan.now }
{
    if is_at(number, feed.head()) {
        weaver.place(feed.group());
    }
}

/// Looks at the packets of a frame in each feed in which they are next.
pub(crate) fn look_all<'p>(
    weaver: &mut Weaver<'p>,
    feeds: &[EventFeed<MarkedGroup<'p>>],
    number: u64,
)
    requires of { AreOf weaver.old.plan.now feeds.now }
    ensures weaves { (gs : List Group) → HaveGroups number feeds.now gs → Weaves weaver.old number [] []
        → Weaves weaver.new number gs [] }
    ensures own { IsOwn weaver.old → IsOwn weaver.new }
    ensures plan { weaver.new.plan.now ≡ weaver.old.plan.now }
{
    for i in 0..feeds.len() {
        look_one(weaver, &feeds[i], number);
    }
}

/// Places the blocks of these packets.
pub(crate) fn place_all<'p>(
    weaver: &mut Weaver<'p>,
    feeds: &[EventFeed<MarkedGroup<'p>>],
    number: u64,
)
    requires of { AreOf weaver.old.plan.now feeds.now }
    ensures weaves { (gs : List Group) → HaveGroups number feeds.now gs → Weaves weaver.old number gs []
        → Weaves weaver.new number gs gs }
    ensures own { IsOwn weaver.old → IsOwn weaver.new }
    ensures plan { weaver.new.plan.now ≡ weaver.old.plan.now }
{
    for i in 0..feeds.len() {
        place_one(weaver, &feeds[i], number);
    }
}
