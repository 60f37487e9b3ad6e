// Where a merger between files is in its work.

/// What comes next.
#[derive(Clone, Copy, Debug, PartialEq, Eq)]
pub enum Phase {
    /// Records of both feeds, and then the frame of the least number.
    Reads,
    /// Units of the frames begun.
    Gives,
    /// The rest of the units.
    Rests,
    /// Nothing: the run is over.
    Done,
}
