// A record that waits to be given.
ghost use Rattle.std.specs.Prelude.{◌≡◌};
ghost use Rattle.frame_groups.specs.Waits.{waiting_of};

use crate::cause::MuteCause;

/// A record that waits: the number of its frame, and why it is muted if it is.
#[derive(Clone, Copy, Debug, PartialEq, Eq)]
pub struct Waiting {
    pub frame: u64,
    pub mute: Option<MuteCause>,
}

/// How far the records of groups have come.
#[derive(Clone, Copy, Debug, PartialEq, Eq)]
pub struct Progress {
    /// The number of the group under way, if it is known: that of the join once it is closed, and those behind it at
    /// once.
    pub number: Option<u64>,
    /// The number of the next record.
    pub next: u64,
    /// Whether the group is closed.
    pub closing: bool,
    /// Why its frame is muted, once it is closed.
    pub fault: Option<MuteCause>,
}

impl Progress {
    /// The record that waits: of a frame before the group's number, or the group's own once it is closed.
    pub fn waiting(&self) -> Option<Waiting>
        ensures { result ≡ waiting_of self.now }
    {
        let number = self.number?;
        if self.next < number {
            return Some(Waiting {
                frame: self.next,
                mute: Some(MuteCause::Gap),
            });
        }
        if self.closing && self.next == number {
            return Some(Waiting {
                frame: number,
                mute: self.fault,
            });
        }
        None
    }
}
