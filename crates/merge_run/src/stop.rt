// What comes of a run.
ghost use Rattle.std.specs.Prelude.{◌≡◌, ◌<◌, ◌+◌, ◌^◌};
ghost use Rattle.merge_run.specs.Counted.{added};

use feed_merge::Feed;
use thiserror::Error;

/// A run to its end.
#[derive(Clone, Copy, Debug, PartialEq, Eq)]
pub struct MergeRan {
    /// How many frames were picked.
    pub frames: u64,
    /// How many of them are from the first input.
    pub a: u64,
    /// How many of them are from the second input.
    pub b: u64,
    /// How many units were written.
    pub units: u64,
}

impl MergeRan {
    // Counts one frame more.
    pub(crate) fn add(&mut self, feed: Feed)
        requires frames { self.old.frames < 2 ^ 32 }
        requires parts { self.old.a + self.old.b ≡ self.old.frames }
        ensures { self.new ≡ added self.old feed }
    {
        self.frames += 1;
        match feed {
            Feed::A => self.a += 1,
            Feed::B => self.b += 1,
        }
    }

    // Counts units.
    pub(crate) fn add_units(&mut self, count: usize)
        requires few { self.old.units + count < 2 ^ 63 }
        ensures { self.new ≡ record self.old { units = self.old.units + count } }
    {
        self.units += count as u64;
    }
}

/// Why a merger has nothing to give.
#[derive(Clone, Copy, Debug, PartialEq, Eq, Error)]
pub enum MergeStop {
    /// Both inputs were read to their ends, and in neither a frame that begins a superframe passes the tests.
    #[error("no superframe begins in either input with a frame that passes the tests")]
    NoSuperframe,
    /// The record of frame 2^31 waits.
    #[error("too many frames")]
    TooManyFrames,
}
