// What comes of a run.
use thiserror::Error;

/// A run to its end.
#[derive(Clone, Copy, Debug, PartialEq, Eq)]
pub struct GatewayRan {
    /// The number of T2 frames.
    pub frames: u64,
    /// The number of units written.
    pub units: u64,
}

/// Why a gateway refuses what it was fed.
#[derive(Clone, Copy, Debug, PartialEq, Eq, Error)]
pub enum GatewayStop {
    /// This packet of this input, both counted from 0, does not begin with the sync byte, or the file ends inside it.
    #[error("packet {packet} of input {input} is bad")]
    Bad { input: u8, packet: u64 },
    /// Frame 2^31 would begin.
    #[error("too many frames")]
    TooManyFrames,
}
