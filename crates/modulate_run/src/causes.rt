// Why frames are muted, counted for people.
ghost use Rattle.std.specs.Prelude.{◌≡◌, ◌<◌};
ghost use Rattle.modulate_run.specs.declared.causes.TheConstants.{CAUSES};

use frame_groups::{MuteCause, Waiting};
use ports::{Desk, LACK_PACKET, Note, OTHER_MOMENT};

/// How many causes there are.
const CAUSES: usize = 6;

// A cause, by its place among all.
fn place(cause: MuteCause) -> usize
    ensures { result < CAUSES }
{
    match cause {
        MuteCause::Gap => 0,
        MuteCause::PacketMissing => 1,
        MuteCause::L1Refused => 2,
        MuteCause::MapRefused => 3,
        MuteCause::PoolFull { .. } => 4,
        MuteCause::TimeDisagrees { .. } => 5,
    }
}

// What is told of each cause, in the same order.
const WORDS: [&str; CAUSES] = [
    "are not in the stream",
    LACK_PACKET,
    "have another L1 signalling than the configuration's",
    "have cells that do not stand apart",
    "have more baseband frames than there is room for",
    OTHER_MOMENT,
];

/// The muted frames of a run, by their causes.
#[derive(Clone, Copy)]
pub struct Causes {
    notes: [Note; CAUSES],
}

impl Causes {
    /// None is muted.
    pub fn new() -> Causes {
        Causes {
            notes: WORDS.map(|what| Note::none(what)),
        }
    }

    /// Counts a record that was given.
    pub fn add(&mut self, given: Waiting) {
        if let Some(cause) = given.mute {
            self.notes[place(cause)].add(given.frame);
        }
    }

    /// Notes each cause, in their order, and how many frames are muted for it.
    pub fn note<D: Desk>(&self, desk: &mut D)
        ensures { D.state desk.new ≡ D.state desk.old }
    {
        for note in self.notes {
            desk.note(note);
        }
    }
}
