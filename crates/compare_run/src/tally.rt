// Frames that were compared, in turn.
ghost use Rattle.std.specs.Prelude.{◌≡◌, ◌≤◌, ◌<◌, ◌^◌, Some};
ghost use Rattle.compare_run.specs.declared.answer_run.Run.{Run};

use crate::answer::Answer;
use crate::answer_run::{Run, open_behind};
use crate::counts::{CompareRan, counted};
use crate::lines::{LONGEST_LINE, rest_line, told_lines};
use file_run::Line;

/// No frame more, nor the end, makes more bytes known.
pub const LONGEST_TEXT: usize = 2 * LONGEST_LINE;

/// Frames that were compared, in turn: the run under way, and how many there are. It takes no memory.
#[derive(Drop)]
pub struct Tally {
    // The run that may go on.
    run: Option<Run>,
    counts: CompareRan,
    ghost few: { (counts.same ≤ counts.frames) × (counts.differ ≤ counts.frames) },
    ghost low: { (r : Run) → run ≡ Some r → r.last < 2 ^ 63 },
}

impl Tally {
    ghost use Rattle.std.specs.Prelude.{◌≡◌, ◌≤◌, ◌<◌, ◌^◌, ◌++◌, ◌∷◌, ℕ, List, [], length};
    ghost use Rattle.compare_run.specs.Comparing.{Answered, answered, PlpDifference};
    ghost use Rattle.compare_run.specs.Lines.{known_text, plp_lines, text_of};
    ghost use Rattle.compare_run.specs.TallyStandsFor.{TallyStandsFor, counts_in, frames_in};
    ghost use Rattle.compare_run.specs.declared.tally.TheConstants.{LONGEST_TEXT};

    /// No frame.
    pub fn new() -> Tally
        ensures { TallyStandsFor result [] }
    {
        Tally {
            run: None,
            counts: CompareRan {
                frames: 0,
                same: 0,
                differ: 0,
                first: None,
            },
        }
    }

    /// The numbers of the frames.
    pub fn counts(&self) -> CompareRan
        ensures { result ≡ counts_in self.now }
    {
        self.counts
    }

    /// Adds the next frame: the lines that are known by it, but for those of its PLPs, which follow if it differs.
    pub fn add(&mut self, frame: u64, answer: Answer) -> Line
        requires few { frames_in self.old < 2 ^ 62 }
        requires low { frame < 2 ^ 63 }
        ensures stands { (xs : List Answered) → TallyStandsFor self.old xs
            → TallyStandsFor self.new (xs ++ answered frame answer ∷ []) }
        ensures told { (of : ℕ → List PlpDifference) (xs : List Answered) → TallyStandsFor self.old xs
            → known_text of (xs ++ answered frame answer ∷ [])
            ≡ known_text of xs ++ result ++ plp_lines of answer frame }
        ensures len { length result ≤ LONGEST_TEXT }
    {
        let line = told_lines(self.run, frame, answer);
        self.run = open_behind(self.run, frame, answer);
        self.counts = counted(self.counts, frame, answer);
        line
    }

    /// The lines that are left behind the last frame: of no frame there are none.
    pub fn finish(&self) -> Line
        ensures text { (of : ℕ → List PlpDifference) (xs : List Answered) → TallyStandsFor self.now xs
            → text_of of xs ≡ known_text of xs ++ result }
        ensures len { length result ≤ LONGEST_TEXT }
    {
        rest_line(self.run, self.counts)
    }
}
