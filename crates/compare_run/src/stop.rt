// Why a comparison is no success.
use thiserror::Error;

/// Why two streams are not told to make the same frames.
#[derive(Clone, Copy, Debug, PartialEq, Eq, Error)]
pub enum CompareStop {
    /// Both inputs were read to their ends, and in neither a frame that begins a superframe passes the tests.
    #[error("no superframe begins in either input with a frame that passes the tests")]
    NoSuperframe,
    /// The record of frame 2^31 waits.
    #[error("too many frames")]
    TooManyFrames,
    /// Both inputs were read to their ends, and this frame is the first that both send and that is not the same.
    #[error("frame {frame} differs")]
    Differs { frame: u64 },
}
