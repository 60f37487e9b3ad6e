// How many frames two streams have.
ghost use Rattle.std.specs.Prelude.{◌≡◌, ◌≤◌, ◌<◌, ◌^◌, Some, None, if◌then◌else◌};
ghost use Rattle.std.specs.Option.{option_or};
ghost use Rattle.compare_run.specs.Comparing.{answered};
ghost use Rattle.compare_run.specs.Runs.{counted as counted_by};

use crate::answer::Answer;

/// How many frames two streams have together.
#[derive(Clone, Copy, Debug, PartialEq, Eq)]
pub struct CompareRan {
    /// Frames that one of them has at least.
    pub frames: u64,
    /// Those that both send, and the same.
    pub same: u64,
    /// Those that both send, and not the same.
    pub differ: u64,
    /// The first of those that differ.
    pub first: Option<u64>,
}

/// With one frame more.
pub fn counted(counts: CompareRan, frame: u64, answer: Answer) -> CompareRan
    requires few { counts.frames < 2 ^ 62 }
    requires same { counts.same ≤ counts.frames }
    requires differ { counts.differ ≤ counts.frames }
    ensures { result ≡ counted_by counts (answered frame answer) }
{
    let differs = answer.is_differing();
    CompareRan {
        frames: counts.frames + 1,
        same: counts.same + u64::from(answer.is_same()),
        differ: counts.differ + u64::from(differs),
        first: first_of(counts.first, frame, differs),
    }
}

// The first that differs: what it was, or this frame if it does.
fn first_of(first: Option<u64>, frame: u64, differs: bool) -> Option<u64>
    ensures { result ≡ option_or first (if differs then Some frame else None) }
{
    match first {
        Some(earlier) => Some(earlier),
        None => { if differs { Some(frame) } else { None } }
    }
}
