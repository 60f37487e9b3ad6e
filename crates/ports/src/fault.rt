// Faults of a desk, which are counted.
ghost use Rattle.std.specs.Prelude.{◌≡◌, ◌≤◌, IsSome};
ghost use Rattle.ports.specs.Counts.{with_fault};

use crate::Counts;
use thiserror::Error;

/// The kinds of faults.
#[derive(Clone, Copy, Debug, PartialEq, Eq)]
pub enum FaultKind {
    /// A file could not be opened or read.
    Reading,
    /// A file could not be created or written, or a text not be said.
    Writing,
    /// The last line could not be said.
    LastLine,
}

/// A call of a desk failed. The desk counts each one.
#[derive(Clone, Copy, Debug, PartialEq, Eq, Error)]
#[error("a file or standard output failed")]
pub struct DeskFault;

// One more fault of a kind, which is the first if there was none.
pub(crate) fn fault(counts: &mut Counts, kind: FaultKind) -> DeskFault
    ensures one { counts.new ≡ with_fault kind counts.old }
    ensures first { IsSome counts.new.first }
    ensures reads { counts.old.reads ≤ counts.new.reads }
    ensures writes { counts.old.writes ≤ counts.new.writes }
    ensures lines { counts.old.lines ≤ counts.new.lines }
{
    counts.first = counts.first.or(Some(kind));
    match kind {
        FaultKind::Reading => counts.reads = counts.reads.saturating_add(1),
        FaultKind::Writing => counts.writes = counts.writes.saturating_add(1),
        FaultKind::LastLine => counts.lines = counts.lines.saturating_add(1),
    }
    DeskFault
}
