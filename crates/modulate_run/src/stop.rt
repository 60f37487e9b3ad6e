// What comes of a run.
ghost use Rattle.std.specs.Prelude.{◌≡◌};
ghost use Rattle.modulate_run.specs.GivenRecord.{added};

use frame_groups::Waiting;
use thiserror::Error;

/// The records of a run.
#[derive(Clone, Copy, Debug, PartialEq, Eq)]
pub struct ModulateRan {
    /// The number of the frame of the first one, 0 if there is none.
    pub first: u64,
    /// How many there are.
    pub records: u64,
    /// How many of them are muted.
    pub muted: u64,
}

impl ModulateRan {
    // Counts one record more. There are 2^31 at most, so no number stands still at the greatest.
    pub(crate) fn add(&mut self, given: Waiting)
        ensures { self.new ≡ added self.old given }
    {
        if self.records == 0 {
            self.first = given.frame;
        }
        self.records = self.records.saturating_add(1);
        if given.mute.is_some() {
            self.muted = self.muted.saturating_add(1);
        }
    }
}

/// Why a modulator has no records to give.
#[derive(Clone, Copy, Debug, PartialEq, Eq, Error)]
pub enum ModulateStop {
    /// The input was read to its end, and no frame that begins a superframe passes the tests.
    #[error("no superframe begins in the input with a frame that passes the tests")]
    NoSuperframe,
    /// The record of frame 2^31 waits.
    #[error("too many frames")]
    TooManyFrames,
}
