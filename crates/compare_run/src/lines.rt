// The lines of runs.
ghost use Rattle.std.specs.Prelude.{◌≡◌, ◌≤◌, ◌<◌, ◌*◌, ◌^◌, length, Some};
ghost use Rattle.compare_run.specs.declared.answer_run.Run.{Run};
ghost use Rattle.compare_run.specs.Comparing.{answered, difference};
ghost use Rattle.compare_run.specs.Lines.{place_text as text_of_place, span_line as line_of_span};
ghost use Rattle.compare_run.specs.Lines.{differs_line as line_of_differing, other_text as text_of_other};
ghost use Rattle.compare_run.specs.Lines.{plp_line as line_of_plp, run_line as line_of_run};
ghost use Rattle.compare_run.specs.Lines.{compared_line as line_of_counts, lines_of, rest_text};
ghost use Rattle.compare_run.specs.Runs.{single_known, told_by};

use crate::answer::{Answer, Other, Place};
use crate::answer_run::{Run, single};
use crate::counts::CompareRan;
use file_run::Line;

// Bytes of a word, of a place and of what is said of a PLP at most, and of a line: those of their keys, and 20 for each
// number.
const WORD: usize = 10;

const PLACE: usize = 57;

const OTHER: usize = 32;

/// The line of a run, of a PLP, or of numbers, has no more bytes.
pub const LONGEST_LINE: usize = 100;

// The words of a place.
fn place_line(at: Place) -> Line
    ensures text { result ≡ text_of_place at }
    ensures len { length result ≤ PLACE }
{
    let mut line = Line::new();
    match at {
        Place::L1 => line.push(b"l1"),
        Place::Block { plp_id, number } => {
            line.push_field(b"block plp=", u64::from(plp_id));
            line.push_field(b" block=", u64::from(number));
        }
    }
    line
}

// The line of frames from one to another, with a word.
fn span_line(first: u64, last: u64, word: &[u8]) -> Line
    requires { length word.now ≤ WORD }
    ensures text { result ≡ line_of_span first last word.now }
    ensures len { length result ≤ LONGEST_LINE }
{
    let mut line = Line::new();
    line.push_field(b"frames=", first);
    line.push_field(b"..", last);
    line.push(b" is=");
    line.push(word);
    line.push(b"\n");
    line
}

// The line of a frame that differs.
fn differs_line(frame: u64, at: Place) -> Line
    ensures text { result ≡ line_of_differing frame at }
    ensures len { length result ≤ LONGEST_LINE }
{
    let mut line = Line::new();
    line.push_field(b"frame=", frame);
    line.push(b" is=differs at=");
    line.push(place_line(at).as_bytes());
    line.push(b"\n");
    line
}

// What is said of a PLP that differs.
fn other_line(other: Other) -> Line
    ensures text { result ≡ text_of_other other }
    ensures len { length result ≤ OTHER }
{
    let mut line = Line::new();
    if other.is_end {
        line.push(b"count");
    } else {
        line.push_field(b"block block=", u64::from(other.number));
    }
    line
}

/// The line of a PLP in which a frame differs.
#[tactic(auto, unfolding(crate::specs::Lines::plp_line))]
pub fn plp_line(frame: u64, plp_id: u8, other: Other) -> Line
    ensures text { result ≡ line_of_plp frame (difference plp_id other) }
    ensures len { length result ≤ LONGEST_LINE }
{
    let mut line = Line::new();
    line.push_field(b"frame=", frame);
    line.push_field(b" plp=", u64::from(plp_id));
    line.push(b" at=");
    line.push(other_line(other).as_bytes());
    line.push(b"\n");
    line
}

/// The line of a run.
#[tactic(auto, unfolding(crate::specs::Lines::run_line))]
pub fn run_line(run: Run) -> Line
    ensures text { result ≡ line_of_run run }
    ensures len { length result ≤ LONGEST_LINE }
{
    match run.answer {
        Answer::Same => span_line(run.first, run.last, b"same"),
        Answer::MutedA => span_line(run.first, run.last, b"muted-a"),
        Answer::MutedB => span_line(run.first, run.last, b"muted-b"),
        Answer::MutedBoth => span_line(run.first, run.last, b"muted-both"),
        Answer::OnlyA => span_line(run.first, run.last, b"only-a"),
        Answer::OnlyB => span_line(run.first, run.last, b"only-b"),
        Answer::Differs { at } => differs_line(run.first, at),
    }
}

/// The line of the numbers.
#[tactic(auto, unfolding(crate::specs::Lines::compared_line))]
pub fn compared_line(counts: CompareRan) -> Line
    ensures text { result ≡ line_of_counts counts }
    ensures len { length result ≤ LONGEST_LINE }
{
    let mut line = Line::new();
    line.push_field(b"compared frames=", counts.frames);
    line.push_field(b" same=", counts.same);
    line.push_field(b" differ=", counts.differ);
    line.push(b"\n");
    line
}

// The line of a frame that has a run of its own.
fn single_line(frame: u64, answer: Answer) -> Line
    ensures text { result ≡ lines_of (single_known (answered frame answer)) }
    ensures len { length result ≤ LONGEST_LINE }
{
    if answer.is_differing() {
        return run_line(single(frame, answer));
    }
    Line::new()
}

/// The lines that are known by a frame, behind the run that might go on.
pub fn told_lines(run: Option<Run>, frame: u64, answer: Answer) -> Line
    requires { (r : Run) → run ≡ Some r → r.last < 2 ^ 63 }
    ensures text { result ≡ lines_of (told_by run (answered frame answer)) }
    ensures len { length result ≤ 2 * LONGEST_LINE }
{
    let Some(run) = run else {
        return single_line(frame, answer);
    };
    if run.goes_on(frame, answer) {
        return Line::new();
    }
    let mut line = run_line(run);
    line.push(single_line(frame, answer).as_bytes());
    line
}

/// What is left at the end: the run that might go on, and the numbers; of no frame there is nothing.
#[tactic(auto, unfolding(crate::specs::Lines::rest_text))]
pub fn rest_line(run: Option<Run>, counts: CompareRan) -> Line
    ensures text { result ≡ rest_text run counts }
    ensures len { length result ≤ 2 * LONGEST_LINE }
{
    if counts.frames == 0 {
        return Line::new();
    }
    let Some(run) = run else {
        return compared_line(counts);
    };
    let mut line = run_line(run);
    line.push(compared_line(counts).as_bytes());
    line
}
