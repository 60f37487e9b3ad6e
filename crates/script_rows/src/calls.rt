// Commands over devices that fail: each call of a kind in turn, until a run is done. What a run leaves is a front of
// what it leaves without a fault.
use crate::bench::Bench;
use ports::CallKind;
use site_top::Outcome;
use std::alloc::AllocError;

// More calls of one kind than any run here makes.
const MOST: u64 = 200;

/// A kind of calls, and how a run ends in which one fails.
#[derive(Clone, Copy)]
pub(crate) struct Kind {
    pub(crate) kind: CallKind,
    outcome: Outcome,
    line: &'static str,
}

const fn reading(kind: CallKind) -> Kind {
    Kind {
        kind,
        outcome: Outcome::ReadFault,
        line: "fault: read\n",
    }
}

const fn writing(kind: CallKind) -> Kind {
    Kind {
        kind,
        outcome: Outcome::WriteFault,
        line: "fault: write\n",
    }
}

/// The kind of calls of a name.
pub(crate) fn kind_of(name: &str) -> Option<Kind> {
    match name {
        "open" => Some(reading(CallKind::Open)),
        "read" => Some(reading(CallKind::Read)),
        "create" => Some(writing(CallKind::Create)),
        "write" => Some(writing(CallKind::Write)),
        "say" => Some(writing(CallKind::Say)),
        "last" => Some(writing(CallKind::Last)),
        _ => None,
    }
}

// Whether a run in which this call failed said a front of what it says if nothing fails, and then its last line.
fn says_front(left: &[u8], usual: &[u8], kind: &Kind) -> bool {
    match left.strip_suffix(kind.line.as_bytes()) {
        Some(front) => usual.starts_with(front),
        None => false,
    }
}

// Whether a call of this kind can come before a file is created.
fn comes_early(kind: CallKind) -> bool {
    matches!(kind, CallKind::Open | CallKind::Read | CallKind::Create)
}

// Whether the file that such a run wrote has a front of what it has if nothing fails. It may be absent only if a call
// failed that can come before it is created. If a second write failed, it has some bytes and not all.
fn writes_front(left: Option<&[u8]>, usual: Option<&[u8]>, kind: CallKind, nth: u64) -> bool {
    let again = kind == CallKind::Write && 1 < nth;
    match (left, usual) {
        (Some(some), Some(all)) => {
            all.starts_with(some) && (!again || 0 < some.len() && some.len() < all.len())
        }
        (None, Some(_)) => comes_early(kind),
        (some, None) => some.is_none(),
    }
}

fn leaves_front(left: &Bench, usual: &Bench, kind: &Kind, nth: u64) -> bool {
    says_front(left.answer(), usual.answer(), kind)
        && writes_front(left.file("o"), usual.file("o"), kind.kind, nth)
}

// What came of a run in which a call fails.
enum Came {
    // It is done, since it makes no such call.
    Done,
    // It ended with that fault, and left a front.
    Front,
    Other,
}

fn come_of(
    bench: &mut Bench,
    usual: &Bench,
    kind: &Kind,
    nth: u64,
    words: &str,
) -> Result<Came, AllocError> {
    bench.fail(kind.kind, nth)?;
    let outcome = bench.run(words)?;
    if outcome == Outcome::Done {
        return Ok(Came::Done);
    }
    if outcome == kind.outcome && leaves_front(bench, usual, kind, nth) {
        return Ok(Came::Front);
    }
    Ok(Came::Other)
}

fn come_anew(
    made: &Bench,
    usual: &Bench,
    kind: &Kind,
    nth: u64,
    words: &str,
) -> Result<Came, AllocError> {
    let mut bench = made.copy(words)?;
    come_of(&mut bench, usual, kind, nth, words)
}

// Makes each call of a kind fail in turn, until a run is done, and tells how many there were, if each left a front.
fn count(made: &Bench, usual: &Bench, kind: &Kind, words: &str) -> Result<Option<u64>, AllocError> {
    for nth in 1..MOST {
        match come_anew(made, usual, kind, nth, words)? {
            Came::Done => return Ok(Some(nth - 1)),
            Came::Front => {}
            Came::Other => return Ok(None),
        }
    }
    Ok(None)
}

// The bench behind a run in which nothing fails.
fn usual_of(made: &Bench, words: &str) -> Result<Bench, AllocError> {
    let mut bench = made.copy(words)?;
    let _ = bench.run(words)?;
    Ok(bench)
}

// Whether a count is there, and within a bound `N` or `LEAST-MOST`.
fn is_within(calls: Option<u64>, bound: &str) -> bool {
    let (least, most) = bound.split_once('-').unwrap_or((bound, bound));
    match calls {
        Some(calls) => { number(least, MOST) <= calls && calls <= number(most, 0) }
        None => false,
    }
}

fn number(text: &str, other: u64) -> u64 {
    text.parse::<u64>().unwrap_or(other)
}

// The kinds of calls that are tried, in the order of their bounds.
const KINDS: [&str; 5] = ["open", "read", "create", "write", "say"];

fn try_kind(
    made: &Bench,
    usual: &Bench,
    name: &str,
    bound: &str,
    words: &str,
) -> Result<bool, AllocError> {
    match kind_of(name) {
        Some(kind) => Ok(is_within(count(made, usual, &kind, words)?, bound)),
        None => Ok(false),
    }
}

// Of each kind whether there are as many calls as its bound says, and each that fails is told and leaves a front.
fn try_kinds(made: &Bench, bounds: &str, words: &str) -> Result<String, AllocError> {
    let usual = usual_of(made, words)?;
    let mut told = String::new(made.alloc());
    for (name, bound) in KINDS.iter().zip(bounds.split(',')) {
        let is_so = try_kind(made, &usual, name, bound, words)?;
        told.push_str(if is_so { "+" } else { "-" })?;
    }
    Ok(told)
}

/// `calls OPEN,READ,CREATE,WRITE,SAY WORDS`: of each kind of calls, `+` if a command makes as many as its bound says,
/// `N` or `LEAST-MOST`, and each that fails is told and leaves a front; else `-`.
pub(crate) fn calls_of(made: &Bench, rest: &str) -> Result<String, AllocError> {
    let (bounds, words) = rest.split_once(' ').unwrap_or((rest, ""));
    try_kinds(made, bounds, words)
}

// The most that may be read of a file while the file `o` has so many bytes, by rows `BELOW:MOST`.
fn most_given(rows: &str, size: usize) -> u64 {
    for row in rows.split(',') {
        let (below, most) = row.split_once(':').unwrap_or((row, ""));
        if (size as u64) < number(below, 0) {
            return number(most, 0);
        }
    }
    0
}

// Whether a run in which this write fails read no more of a file than it may.
fn is_behind(
    made: &Bench,
    name: &str,
    rows: &str,
    nth: u64,
    words: &str,
) -> Result<bool, AllocError> {
    let mut bench = made.copy(words)?;
    bench.fail(CallKind::Write, nth)?;
    let outcome = bench.run(words)?;
    let most = most_given(rows, bench.bytes("o").len());
    Ok(outcome == Outcome::WriteFault && bench.given(name) <= most)
}

/// `ahead WRITES NAME ROWS WORDS`: of how many of so many writes, each of which fails in turn, the command has read no
/// more of a file than rows `BELOW:MOST` say: of those up to the first one of which it is not so.
pub(crate) fn ahead_of(made: &Bench, rest: &str) -> Result<String, AllocError> {
    let (writes, rest) = rest.split_once(' ').unwrap_or((rest, ""));
    let (name, rest) = rest.split_once(' ').unwrap_or((rest, ""));
    let (rows, words) = rest.split_once(' ').unwrap_or((rest, ""));
    let mut held = 0;
    for nth in 1..MOST {
        if nth > number(writes, 0) || !is_behind(made, name, rows, nth, words)? {
            break;
        }
        held = nth;
    }
    format!(in made.alloc(); "{held}")
}
