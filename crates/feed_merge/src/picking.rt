// Which feed a frame comes from.
ghost use Rattle.std.specs.Prelude.{◌≡◌};
ghost use Rattle.feed_merge.specs.Picking.{is_at, is_there, source_at, picked, pick_at};

use crate::seen::{Feed, Pick, Seen};

// Whether the record is of a frame.
fn is_at(frame: u64, seen: Option<Seen>) -> bool
    ensures { result ≡ is_at frame seen }
{
    match seen {
        Some(seen) => seen.frame == frame,
        None => false,
    }
}

// Whether it is that frame, and not muted.
fn is_there(frame: u64, seen: Option<Seen>) -> bool
    ensures { result ≡ is_there frame seen }
{
    match seen {
        Some(seen) => seen.frame == frame && seen.whole,
        None => false,
    }
}

fn source_at(frame: u64, a: Option<Seen>, b: Option<Seen>) -> Option<Feed>
    ensures { result ≡ source_at frame a b }
{
    if is_there(frame, a) {
        return Some(Feed::A);
    }
    if is_there(frame, b) {
        return Some(Feed::B);
    }
    None
}

// What becomes of the record of a frame.
fn pick_at(frame: u64, a: Option<Seen>, b: Option<Seen>) -> Pick
    ensures { result ≡ pick_at frame a b }
{
    Pick {
        source: source_at(frame, a, b),
        leave_a: is_at(frame, a),
        leave_b: is_at(frame, b),
    }
}

/// What becomes of the records that wait, each `None` for a feed that ended: the frame of the least number comes from A
/// if A has it, else from B if B has it, and what either has of that number is left behind.
pub fn pick(a: Option<Seen>, b: Option<Seen>) -> Pick
    ensures { result ≡ picked a b }
{
    match (a, b) {
        (None, None) => Pick {
            source: None,
            leave_a: false,
            leave_b: false,
        },
        (Some(first), None) => pick_at(first.frame, a, b),
        (None, Some(second)) => pick_at(second.frame, a, b),
        (Some(first), Some(second)) => pick_at(first.frame.min(second.frame), a, b),
    }
}
