// What a run took note of.
use crate::alarm::Feeds;
use ports::{
    ALONE_HAD_WHOLE, HAD_WHOLE, LACK_PACKET, MOST_FEEDS, NONE_HAD_WHOLE, Note, OTHER_MOMENT,
};
use std::fmt::{self, Display, Formatter, Write};
use std::io::{self, Eprint};

// How many notes of a run are kept at most: two of each feed, and two of all. There are fewer causes for which frames
// are muted.
const MOST_NOTES: usize = 2 * MOST_FEEDS + 2;

// What is told with words that are found for it.
const KNOWN: [&str; 4] = [HAD_WHOLE, ALONE_HAD_WHOLE, NONE_HAD_WHOLE, OTHER_MOMENT];

// Which frames a note is of.
#[derive(Clone, Copy)]
struct Which(Note);

impl Display for Which {
    fn fmt<W: Write>(&self, f: &mut Formatter<W>) -> fmt::Result {
        if self.0.count == 1 {
            return write!(f, "frame {} of CONFIG", self.0.first);
        }
        write!(
            f,
            "the first is frame {} of CONFIG, the last frame {}",
            self.0.first, self.0.last
        )
    }
}

/// Says with these words what is so of some of the frames that were told before.
pub fn say_as(rt: &impl Eprint, note: Note, what: &str) -> io::Result<()> {
    eprintln!(rt; "of these {} {what}: {}", note.count, Which(note))
}

/// Says of frames that none of them was whole in either of two feeds.
pub fn say_lacked(rt: &impl Eprint, note: Note) -> io::Result<()> {
    eprintln!(rt;
        "frames that neither had whole: {}: {}",
        note.count,
        Which(note)
    )
}

// The number behind the last frame of a note, or 0 if there is none.
fn number_behind(note: Note) -> u64 {
    if note.count == 0 {
        0
    } else {
        note.last.saturating_add(1)
    }
}

/// What a run took note of: why frames are muted, or which frames each feed had whole. They are in the order in which
/// they came first.
#[derive(Drop)]
pub struct Notes {
    kept: [Option<Note>; MOST_NOTES],
}

impl Notes {
    /// None.
    pub fn new() -> Notes {
        Notes {
            kept: [None; MOST_NOTES],
        }
    }

    /// A note came. It stands for those that came before of the same input, and of the same that was met.
    pub fn add(&mut self, note: Note) {
        for place in self.kept.iter_mut() {
            if place.map_or(true, |kept| {
                kept.input == note.input && kept.what == note.what
            }) {
                *place = Some(note);
                return;
            }
        }
    }

    /// Says what was met besides, with its own words: neither which frames were whole nor that timestamps are of other
    /// moments.
    pub fn say_others(&self, rt: &impl Eprint) -> io::Result<()> {
        for note in self.kept.iter().flatten() {
            if note.count > 0 && !KNOWN.contains(&note.what) {
                eprintln!(rt;
                    "frames that {}: {}: {}",
                    note.what,
                    note.count,
                    Which(*note)
                )?;
            }
        }
        Ok(())
    }

    // The note of an input and of what was met.
    fn find(&self, input: usize, what: &str) -> Option<Note> {
        for note in self.kept.iter().flatten() {
            if note.input == input && note.what == what {
                return Some(*note);
            }
        }
        None
    }

    /// Says them, if frames were met.
    pub fn say(&self, rt: &impl Eprint) -> io::Result<()> {
        for note in self.kept.iter().flatten() {
            if note.count > 0 {
                say_as(rt, *note, note.what)?;
            }
        }
        Ok(())
    }

    /// The frames that a feed had whole, and those of them that no other had, by its place.
    pub fn of_feed(&self, place: usize) -> Option<(Note, Note)> {
        let whole = self.find(place, HAD_WHOLE)?;
        let alone = self.find(place, ALONE_HAD_WHOLE)?;
        Some((whole, alone))
    }

    /// The frames that no feed had whole, if there are some.
    pub fn of_none(&self) -> Option<Note> {
        let lacked = self.find(0, NONE_HAD_WHOLE)?;
        if lacked.count > 0 { Some(lacked) } else { None }
    }

    /// The number behind the last frame that a feed had whole, or 0 if it had none, by its place.
    pub fn whole_until(&self, place: usize) -> u64 {
        self.find(place, HAD_WHOLE)
            .map_or(0, |note| number_behind(note))
    }

    // The number behind the last frame that some feed had whole.
    fn some_whole_until(&self) -> u64 {
        let mut until = 0;
        for note in self.kept.iter().flatten() {
            if note.what == HAD_WHOLE {
                until = until.max(number_behind(*note));
            }
        }
        until
    }

    /// Which feeds are behind: another one had whole a frame above the last that they had whole.
    pub fn behind(&self) -> Feeds {
        let until = self.some_whole_until();
        let mut feeds = Feeds::NONE;
        for note in self.kept.iter().flatten() {
            if note.what == HAD_WHOLE {
                feeds.set(note.input, number_behind(*note) < until);
            }
        }
        feeds
    }

    /// Which feeds have more than one frame with a timestamp of another moment.
    pub fn shifted(&self) -> Feeds {
        let mut feeds = Feeds::NONE;
        for note in self.kept.iter().flatten() {
            if note.what == OTHER_MOMENT {
                feeds.set(note.input, note.count > 1);
            }
        }
        feeds
    }

    /// The number of the first frame that some feed had whole.
    pub fn first_whole(&self) -> u64 {
        let mut first = u64::MAX;
        for note in self.kept.iter().flatten() {
            if note.what == HAD_WHOLE && note.count > 0 {
                first = first.min(note.first);
            }
        }
        first
    }

    /// The number of the last frame that is muted, if a packet of it is missing.
    pub fn last_that_lacks(&self) -> Option<u64> {
        let mut found = None;
        let mut last = 0;
        for note in self.kept.iter().flatten() {
            if note.count > 0 && note.last >= last {
                last = note.last;
                found = if note.what == LACK_PACKET {
                    Some(last)
                } else {
                    None
                };
            }
        }
        found
    }

    /// The frames of a feed that have a timestamp of another moment, by its place, if there is more than one.
    pub fn other_moments(&self, place: usize) -> Option<Note> {
        let moments = self.find(place, OTHER_MOMENT)?;
        if moments.count > 1 {
            Some(moments)
        } else {
            None
        }
    }
}
