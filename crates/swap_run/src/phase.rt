// Where a swapper between files is in its work.
use crate::stop::SwapStop;

/// What comes next.
#[derive(Clone, Copy, Debug, PartialEq, Eq)]
pub enum Phase {
    /// The next record of the T2-MI stream.
    Records,
    /// Packets of the input, for the frame of the record that waits.
    Packets,
    /// Units of the frames begun.
    Units,
    /// The rest of the input.
    Drains,
    /// The rest of the units.
    Rests,
    /// Nothing: the run is over.
    Done,
    /// Nothing: what was fed is refused.
    Stopped(SwapStop),
}
