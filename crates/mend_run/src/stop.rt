// What comes of a run.
use thiserror::Error;

/// What was sent in a run. No number is greater than the greatest of 64 bits, where it stands still.
#[derive(Clone, Copy, Debug, PartialEq, Eq)]
pub struct MendRan {
    /// How many frames.
    pub frames: u64,
    /// How many of them no input had whole.
    pub woven: u64,
    /// How many frames between the first and the last were not.
    pub missing: u64,
    /// How many units.
    pub units: u64,
}

/// Why there is nothing to send.
#[derive(Clone, Copy, Debug, PartialEq, Eq, Error)]
pub enum MendStop {
    /// All inputs were read to their ends, and no frame is whole in all of them together.
    #[error("no frame is whole in the inputs together")]
    NoFrame,
}
