// How often calls of a desk failed, and which kind failed first.

use crate::FaultKind;

/// How often calls of a desk failed, by their kinds, and of which kind the first fault was. Each count stays at its
/// greatest value.
#[derive(Clone, Copy, Debug, Default, PartialEq, Eq)]
pub struct Counts {
    /// Opening and reading.
    pub reads: u64,
    /// Creating, writing and saying.
    pub writes: u64,
    /// Saying a last line.
    pub lines: u64,
    /// The kind of the first fault, once there was one.
    pub first: Option<FaultKind>,
}
