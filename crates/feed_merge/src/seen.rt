// What is seen of two feeds.

/// One of two feeds.
#[derive(Clone, Copy, Debug, PartialEq, Eq)]
pub enum Feed {
    A,
    B,
}

/// The record of a feed that waits.
#[derive(Clone, Copy, Debug, PartialEq, Eq)]
pub struct Seen {
    /// The number of its frame.
    pub frame: u64,
    /// Whether it is a frame, and not muted.
    pub whole: bool,
}

/// What becomes of the records that wait: those of the least number are left behind.
#[derive(Clone, Copy, Debug, PartialEq, Eq)]
pub struct Pick {
    /// The feed that has the frame, if one has.
    pub source: Option<Feed>,
    /// The record of A is of that number, and left behind.
    pub leave_a: bool,
    /// So is that of B.
    pub leave_b: bool,
}
