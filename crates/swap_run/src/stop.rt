// What comes of a run.
ghost use Rattle.std.specs.Prelude.{◌≡◌, ◌<◌, ◌+◌, ◌^◌};

use thiserror::Error;

/// A run to its end.
#[derive(Clone, Copy, Debug, PartialEq, Eq)]
pub struct SwapRan {
    /// How many frames were sent on.
    pub frames: u64,
    /// How many other records there were: those of muted frames.
    pub muted: u64,
    /// How many packets of the input were not sent: those of the slots that are not over when the last frame begins.
    pub unsent: u64,
    /// How many units were written.
    pub units: u64,
}

impl SwapRan {
    // Counts units.
    pub(crate) fn add_units(&mut self, count: usize)
        requires few { self.old.units + count < 2 ^ 64 }
        ensures { self.new ≡ record self.old { units = self.old.units + count } }
    {
        self.units += count as u64;
    }
}

/// Why a swapper has nothing to give, or refuses what it was fed.
#[derive(Clone, Copy, Debug, PartialEq, Eq, Error)]
pub enum SwapStop {
    /// The T2-MI stream was read to its end, and in it no frame that begins a superframe passes the tests.
    #[error("no superframe begins with a frame that passes the tests")]
    NoSuperframe,
    /// This packet of the input, counted from 0, does not begin with the sync byte, or the file ends inside it.
    #[error("packet {packet} of the input is bad")]
    InputRefused { packet: u64 },
    /// The record of frame 2^31 waits.
    #[error("too many frames")]
    TooManyFrames,
}
