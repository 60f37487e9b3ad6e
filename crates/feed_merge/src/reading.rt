// What two feeds want next, by the records that wait.
ghost use Rattle.std.specs.Prelude.{◌≡◌};
ghost use Rattle.feed_merge.specs.Reading.{is_idle, least_of, wants_of, step_for};
ghost use Rattle.feed_merge.specs.FeedStandsFor.{waiting_of, has_ended};

use crate::feed::FrameFeed;
use file_run::{AHEAD, Step};
use frame_groups::Waiting;
use plp_config::MOST_FRAMES;

// The least number of two that wait.
fn least(a: Option<Waiting>, b: Option<Waiting>) -> Option<u64>
    ensures { result ≡ least_of a b }
{
    match (a, b) {
        (None, None) => None,
        (Some(first), None) => Some(first.frame),
        (None, Some(second)) => Some(second.frame),
        (Some(first), Some(second)) => Some(first.frame.min(second.frame)),
    }
}

/// The least number of the records that wait.
pub fn least_number(a: &FrameFeed<'_>, b: &FrameFeed<'_>) -> Option<u64>
    ensures { result ≡ least_of (waiting_of a.now) (waiting_of b.now) }
{
    least(a.waiting(), b.waiting())
}

// It wants bytes of an input.
fn wants(input: usize) -> Step
    ensures { result ≡ wants_of input }
{
    Step::Read {
        input,
        least: 1,
        most: AHEAD,
    }
}

/// No record waits, and the stream has not ended.
pub fn is_idle(feed: &FrameFeed<'_>) -> bool
    ensures { result ≡ is_idle (waiting_of feed.now) (has_ended feed.now) }
{
    feed.waiting().is_none() && !feed.is_ended()
}

/// Bytes of the first input whose feed has no record and has not ended, or else to go on by the records that wait, or
/// to end at one of frame 2^31 or later.
pub fn next_step(a: &FrameFeed<'_>, b: &FrameFeed<'_>) -> Step
    ensures { result ≡ step_for a.now b.now }
{
    if is_idle(a) {
        return wants(0);
    }
    if is_idle(b) {
        return wants(1);
    }
    match least_number(a, b) {
        Some(number) if number < MOST_FRAMES => Step::Give,
        Some(_) => Step::End,
        None => Step::Give,
    }
}
