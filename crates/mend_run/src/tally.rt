// What was sent so far.
ghost use Rattle.std.specs.Prelude.{◌≡◌, ◌<◌, ◌+◌, ◌^◌};
ghost use Rattle.mend_run.specs.Shown.{with_frame, with_units, ran_of};

use crate::stop::MendRan;

/// What was sent. The counts stand still at the greatest number.
#[derive(Clone, Copy, Debug, PartialEq, Eq)]
pub(crate) struct Tally {
    /// The number of the first frame, or 0 if there is none.
    pub first: u64,
    /// The number behind that of the last frame, or 0 if there is none.
    pub behind: u64,
    /// How many frames.
    pub frames: u64,
    /// How many of them were woven.
    pub woven: u64,
    /// How many units.
    pub units: u64,
}

impl Tally {
    // Nothing was sent.
    pub const NONE: Tally = Tally {
        first: 0,
        behind: 0,
        frames: 0,
        woven: 0,
        units: 0,
    };

    // One frame more.
    pub fn add_frame(&mut self, number: u64, woven: bool)
        requires { number + 1 < 2 ^ 64 }
        ensures { self.new ≡ with_frame self.old number woven }
    {
        if self.frames == 0 {
            self.first = number;
        }
        self.behind = number + 1;
        self.frames = self.frames.saturating_add(1);
        if woven {
            self.woven = self.woven.saturating_add(1);
        }
    }

    // So many units more.
    pub fn add_units(&mut self, units: u64)
        ensures { self.new ≡ with_units self.old units }
    {
        self.units = self.units.saturating_add(units);
    }

    // The numbers that are told.
    pub fn ran(&self) -> MendRan
        ensures { result ≡ ran_of self.now }
    {
        let span = self.behind.saturating_sub(self.first);
        MendRan {
            frames: self.frames,
            woven: self.woven,
            missing: span.saturating_sub(self.frames),
            units: self.units,
        }
    }
}
