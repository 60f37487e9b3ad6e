// Where the groups of a feed are.
ghost use Rattle.std.specs.Prelude.{◌≡◌, ◌<◌, ℕ, Some};
ghost use Rattle.plp_config.specs.declared.moment.TheConstants.{MOST_FRAMES};
ghost use Rattle.feed_events.specs.FeedEvents.{number_after};
ghost use Rattle.feed_events.specs.Under.{head_of};

use frame_groups::Key;
use plp_config::{MOST_FRAMES, SUPERFRAME_PERIOD};

/// What a feed comes to next.
#[derive(Clone, Copy, Debug, PartialEq, Eq)]
pub enum Head {
    /// That is told by bytes that did not come yet.
    Unknown,
    /// Packets of a frame, by its number, below `plp_config::MOST_FRAMES`.
    Frame(u64),
    /// An idle unit: nothing comes for a while.
    Silent,
    /// Its end.
    Over,
}

// Where the groups are: what is next, whether a group is under way and has a timestamp, and the number of the group
// before it, if that has one and the feed did not fall silent behind it.
#[derive(Clone, Copy, Debug, PartialEq, Eq)]
pub(crate) struct Course {
    pub head: Head,
    pub under_way: bool,
    pub stamped: bool,
    pub last: Option<u64>,
}

// The number behind another, if its frame has a key.
pub(crate) fn number_after(frames: u8, last: Option<u64>, key: Key) -> Option<u64>
    requires some { 0 < frames }
    ensures value { result ≡ number_after frames last key }
    ensures small { (n : ℕ) → result ≡ Some n → n < MOST_FRAMES }
{
    let Some(last) = last else {
        return None;
    };
    if last >= MOST_FRAMES - 1 {
        return None;
    }
    let next = last + 1;
    let frames = u64::from(frames);
    if next / frames % SUPERFRAME_PERIOD != u64::from(key.superframe) {
        return None;
    }
    if next % frames != u64::from(key.frame) {
        return None;
    }
    Some(next)
}

// What a group shows that is closed.
pub(crate) fn head_of(number: Option<u64>) -> Head
    ensures { result ≡ head_of number }
{
    match number {
        Some(number) => Head::Frame(number),
        None => Head::Unknown,
    }
}
