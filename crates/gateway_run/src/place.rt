// Where a gateway is in its work.

use crate::stop::GatewayStop;

/// What comes next.
#[derive(Clone, Copy, Debug, PartialEq, Eq)]
pub enum Phase {
    /// Packets of the input that is looked at.
    Wants,
    /// The next frame.
    Begins,
    /// Units of the frames begun.
    Gives,
    /// The rest of the units.
    Rests,
    /// Nothing: the run is over.
    Done,
    /// Nothing: what was fed is refused.
    Stopped(GatewayStop),
}

/// The input that is looked at, and what comes next.
#[derive(Clone, Copy, Debug, PartialEq, Eq)]
pub struct Place {
    pub input: usize,
    pub phase: Phase,
}
