// Several feeds of a network, in the order of their inputs.
ghost use Rattle.std.specs.Prelude.{◌≡◌, ◌<◌, ◌≤◌, ◌+◌, ◌-◌, ◌^◌, ◌++◌, ◌∷◌, [], ℕ, List, Some, IfOk, false, length};
ghost use Rattle.std.specs.Prelude.{take, slice_get};
ghost use Rattle.plp_config.specs.declared.config.Config.{Config};
ghost use Rattle.ts_packet.specs.declared.sizes.TheConstants.{SIZE};
ghost use Rattle.feed_events.specs.FeedEvents.{FeedEvent, feed_events};
ghost use Rattle.feed_events.specs.StandsFor.{EventFeedStandsFor, fed_of, has_ended, head_of};
ghost use Rattle.feed_events.specs.declared.course.Head.TheVariants as head;
ghost use Rattle.frame_weave.specs.contracts.group.MarkedGroupOpenGroup.TheImpl as marked;
ghost use Rattle.mended_frames.specs.Heads.{head_at};
ghost use Rattle.file_run.specs.Events.{Event, Fed, Ended};
ghost use Rattle.mended_frames.specs.StandsFor.{Feed, AreOf};
ghost use Rattle.mend_run.specs.Row.{Shows, FeedHas, HaveCome, GoOn, Pass, AllKnown, OnePasses};
ghost use Rattle.mend_run.specs.Row.{first_waiting, left_in, rules_of, wants};

use bit_slice::OutOfMemory;
use feed_events::{EventFeed, Head};
use file_run::{AHEAD, Step, events_law};
use frame_weave::MarkedGroup;
use mended_frames::{pass_all, waiting};
use plp_config::Plan;
use std::alloc::Global;
use t2mi_stream::first_unit;
use ts_packet::SIZE;

// What a feed shows is next.
fn look(feed: &EventFeed<MarkedGroup<'_>>)
    ensures { Shows feed.now }
{
    let _ = feed.head();
}

// What each of them shows is next.
fn look_all(feeds: &[EventFeed<MarkedGroup<'_>>])
    ensures { (i : ℕ) (f : Feed) → slice_get feeds.now i ≡ Some f → Shows f }
{
    for i in 0..feeds.len() {
        look(&feeds[i]);
    }
}

// A feed of a network, of which no byte came.
fn open_feed<'p>(alloc: Global, plan: &'p Plan) -> Result<EventFeed<MarkedGroup<'p>>, OutOfMemory>
    ensures { IfOk result (λ f. FeedHas plan.now f [] false []) }
{
    plan.rules_law();
    let group = MarkedGroup::open(alloc, plan)?;
    let feed = EventFeed::open(alloc, plan.config().pid, group)?;
    look(&feed);
    Ok(feed)
}

/// So many feeds of a network, of which no byte came.
pub(crate) fn open_feeds<'p>(
    alloc: Global,
    plan: &'p Plan,
    count: usize,
) -> Result<Vec<EventFeed<MarkedGroup<'p>>>, OutOfMemory>
    ensures come { IfOk result (λ feeds. HaveCome plan.now count feeds.items [] (λ i. [])) }
    ensures of { IfOk result (λ feeds. AreOf plan.now feeds.items) }
{
    let mut feeds = Vec::new(alloc);
    for _ in 0..count {
        feeds.push(open_feed(alloc, plan)?)?;
    }
    Ok(feeds)
}

/// A unit is wanted for the first feed of which it is not known what is next; if there is none, it is to go on.
pub(crate) fn next_step(feeds: &[EventFeed<MarkedGroup<'_>>]) -> Step
    ensures { result ≡ wants (first_waiting feeds.now) }
{
    match waiting(feeds) {
        Some(input) => Step::Read {
            input,
            least: SIZE,
            most: AHEAD,
        },
        None => Step::Give,
    }
}

// A feed takes units until it is known what is next in it: how many bytes. All of them but the last one make nothing
// known.
fn take_units(feed: &mut EventFeed<MarkedGroup<'_>>, bytes: &[u8]) -> usize
    requires unknown { head_of feed.old ≡ head.Unknown }
    requires enough { SIZE ≤ length bytes.now }
    requires room { fed_of feed.old + length bytes.now < 2 ^ 60 }
    ensures some { (SIZE ≤ result) × (result ≤ length bytes.now) }
    ensures stands { (came : List ℕ) (gone : List FeedEvent) → EventFeedStandsFor marked.ghosts feed.old came gone
        → EventFeedStandsFor marked.ghosts feed.new (came ++ take result bytes.now) gone }
    ensures last { (came : List ℕ) (gone : List FeedEvent) → EventFeedStandsFor marked.ghosts feed.old came gone
        → feed_events (rules_of feed.old) false (came ++ take (result - 1) bytes.now) ≡ gone }
    ensures fed { fed_of feed.old ≤ fed_of feed.new }
    ensures rules { rules_of feed.new ≡ rules_of feed.old }
    ensures ended { has_ended feed.new ≡ has_ended feed.old }
{
    let mut count = 0;
    while bytes.len() - count >= SIZE && feed.head() == Head::Unknown {
        feed.feed(first_unit(&bytes[count..]));
        count += SIZE;
    }
    count
}

/// A feed takes whole units of its input until it is known what is next in it: how many bytes.
pub(crate) fn feed_one(
    feeds: &mut [EventFeed<MarkedGroup<'_>>],
    input: usize,
    bytes: &[u8],
) -> usize
    requires inside { input < length feeds.old }
    requires unknown { head_at feeds.old input ≡ head.Unknown }
    requires enough { SIZE ≤ length bytes.now }
    requires room { (f : Feed) → slice_get feeds.old input ≡ Some f → fed_of f + length bytes.now < 2 ^ 60 }
    ensures some { (SIZE ≤ result) × (result ≤ length bytes.now) }
    ensures goes { (c : Config) (k : ℕ) (done : List Event) (gone : ℕ → List FeedEvent)
        → HaveCome c k feeds.old done gone
        → GoOn c k feeds.old feeds.new done (done ++ Fed input (take result bytes.now) ∷ []) gone }
    ensures fed { (i : ℕ) (f h : Feed) → slice_get feeds.old i ≡ Some f → slice_get feeds.new i ≡ Some h
        → fed_of f ≤ fed_of h }
    ensures of { (c : Config) → AreOf c feeds.old → AreOf c feeds.new }
    ensures len { length feeds.new ≡ length feeds.old }
{
    events_law();
    let feed = &mut feeds[input];
    let count = take_units(feed, bytes);
    look(feed);
    count
}

/// The input of a feed has ended behind these bytes, which are no whole unit.
pub(crate) fn end_one(feeds: &mut [EventFeed<MarkedGroup<'_>>], input: usize, tail: &[u8])
    requires inside { input < length feeds.old }
    requires unknown { head_at feeds.old input ≡ head.Unknown }
    requires short { length tail.now < SIZE }
    ensures goes { (c : Config) (k : ℕ) (done : List Event) (gone : ℕ → List FeedEvent)
        → HaveCome c k feeds.old done gone
        → GoOn c k feeds.old feeds.new done (done ++ Ended input tail.now ∷ []) gone }
    ensures fed { (i : ℕ) (f h : Feed) → slice_get feeds.old i ≡ Some f → slice_get feeds.new i ≡ Some h
        → fed_of f ≤ fed_of h }
    ensures of { (c : Config) → AreOf c feeds.old → AreOf c feeds.new }
    ensures len { length feeds.new ≡ length feeds.old }
{
    events_law();
    let feed = &mut feeds[input];
    feed.finish(tail);
    look(feed);
}

/// Passes what is next in each feed, if it is the packets of a frame, or perhaps a silence.
pub(crate) fn pass_next(feeds: &mut [EventFeed<MarkedGroup<'_>>], number: Option<u64>, silent: bool)
    ensures passes { (c : Config) (k : ℕ) (done : List Event) (gone : ℕ → List FeedEvent)
        → HaveCome c k feeds.old done gone → AllKnown feeds.old → Pass c k number silent feeds.old feeds.new done gone }
    ensures left { OnePasses number silent feeds.old → left_in feeds.new < left_in feeds.old }
    ensures fed { (i : ℕ) (f h : Feed) → slice_get feeds.old i ≡ Some f → slice_get feeds.new i ≡ Some h
        → fed_of f ≤ fed_of h }
    ensures of { (c : Config) → AreOf c feeds.old → AreOf c feeds.new }
    ensures len { length feeds.new ≡ length feeds.old }
{
    pass_all(feeds, number, silent);
    look_all(feeds);
}
