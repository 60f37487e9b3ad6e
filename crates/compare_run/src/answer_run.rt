// Frames that follow each other, with one answer.
ghost use Rattle.std.specs.Prelude.{◌≡◌, ◌<◌, ◌^◌, Some};
ghost use Rattle.compare_run.specs.declared.answer_run.Run.{Run};
ghost use Rattle.compare_run.specs.Comparing.{answered};
ghost use Rattle.compare_run.specs.Runs.{single as single_by, goes_on as goes_on_by, next_open, single_open};

use crate::answer::Answer;

/// Frames that follow each other, from the first to the last one, with one answer.
#[derive(Clone, Copy, Debug, PartialEq, Eq)]
pub struct Run {
    pub first: u64,
    pub last: u64,
    pub answer: Answer,
}

// The run of one frame.
pub fn single(frame: u64, answer: Answer) -> Run
    ensures { result ≡ single_by (answered frame answer) }
{
    Run {
        first: frame,
        last: frame,
        answer,
    }
}

impl Run {
    /// Whether it goes on with a frame.
    pub fn goes_on(self, frame: u64, answer: Answer) -> bool
        requires { self.last < 2 ^ 63 }
        ensures { result ≡ goes_on_by self (answered frame answer) }
    {
        self.last + 1 == frame && self.answer.is_one(answer)
    }
}

// The run of one frame, if it may go on.
fn open_single(frame: u64, answer: Answer) -> Option<Run>
    ensures { result ≡ single_open (answered frame answer) }
{
    if answer.is_differing() {
        return None;
    }
    Some(single(frame, answer))
}

/// The run that may go on behind a frame, by the one that might before it.
pub fn open_behind(run: Option<Run>, frame: u64, answer: Answer) -> Option<Run>
    requires { (r : Run) → run ≡ Some r → r.last < 2 ^ 63 }
    ensures { result ≡ next_open run (answered frame answer) }
{
    let Some(run) = run else {
        return open_single(frame, answer);
    };
    if run.goes_on(frame, answer) {
        return Some(Run {
            first: run.first,
            last: frame,
            answer: run.answer,
        });
    }
    open_single(frame, answer)
}
