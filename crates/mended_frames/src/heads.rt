// What several feeds show.
ghost use Rattle.std.specs.Prelude.{◌≡◌, ◌≢◌, ◌<◌, ℕ, true, false, length, IfSome, IfNone};
ghost use Rattle.feed_events.specs.StandsFor.{head_of, is_known};
ghost use Rattle.feed_events.specs.declared.course.Head.TheVariants as head;
ghost use Rattle.mended_frames.specs.Heads.{number_at, least_head, is_passed, head_at, PassesIf, AllPass};
ghost use Rattle.mended_frames.specs.Picks.{lesser};

use feed_events::{EventFeed, Head};
use frame_groups::OpenGroup;

// The number of the frame that is next.
fn number_at(head: Head) -> Option<u64>
    ensures { result ≡ number_at head }
{
    match head {
        Head::Frame(number) => Some(number),
        Head::Unknown | Head::Silent | Head::Over => None,
    }
}

fn lesser(one: Option<u64>, other: Option<u64>) -> Option<u64>
    ensures { result ≡ lesser one other }
{
    match (one, other) {
        (Some(m), Some(n)) => Some(m.min(n)),
        (Some(m), None) => Some(m),
        (None, other) => other,
    }
}

/// The first of several feeds of which it is not known what is next.
pub fn waiting<G: OpenGroup + Drop>(feeds: &[EventFeed<G>]) -> Option<usize>
    ensures some { IfSome result (λ i. (i < length feeds.now) × (head_at feeds.now i ≡ head.Unknown)) }
    ensures first { IfSome result (λ i. (j : ℕ) → j < i → is_known (head_at feeds.now j) ≡ true) }
    ensures none { IfNone result ((i : ℕ) → is_known (head_at feeds.now i) ≡ true) }
{
    for i in 0..feeds.len() {
        if feeds[i].head() == Head::Unknown {
            return Some(i);
        }
    }
    None
}

/// The least number of the frames that are next in several feeds.
pub fn least_number<G: OpenGroup + Drop>(feeds: &[EventFeed<G>]) -> Option<u64>
    ensures { result ≡ least_head (length feeds.now) (head_at feeds.now) }
{
    let mut least = None;
    for i in 0..feeds.len() {
        least = lesser(least, number_at(feeds[i].head()));
    }
    least
}

/// Whether a silence is next in one of several feeds.
pub fn is_silent<G: OpenGroup + Drop>(feeds: &[EventFeed<G>]) -> bool
    ensures yes { result ≡ true → (i : ℕ) × (i < length feeds.now) × (head_at feeds.now i ≡ head.Silent) }
    ensures no { result ≡ false → (i : ℕ) → head_at feeds.now i ≢ head.Silent }
{
    for i in 0..feeds.len() {
        if feeds[i].head() == Head::Silent {
            return true;
        }
    }
    false
}

// Passes what is next in a feed, if it is the packets of a frame, or perhaps a silence.
fn pass_one<G: OpenGroup + Drop>(feed: &mut EventFeed<G>, number: Option<u64>, silent: bool)
    ensures { PassesIf (is_passed number silent (head_of feed.old)) feed.old feed.new }
{
    let passes = match feed.head() {
        Head::Frame(next) => number == Some(next),
        Head::Silent => silent,
        Head::Unknown | Head::Over => false,
    };
    if passes {
        feed.pass();
    }
}

/// Passes what is next in each of several feeds, if it is the packets of a frame, or perhaps a silence.
pub fn pass_all<G: OpenGroup + Drop>(feeds: &mut [EventFeed<G>], number: Option<u64>, silent: bool)
    ensures { AllPass number silent feeds.old feeds.new }
{
    for feed in feeds.iter_mut() {
        pass_one(feed, number, silent);
    }
}
