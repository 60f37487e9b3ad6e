// What the units of a T2-MI stream are, counted by their first bytes as they come.
use std::fmt::{self, Display, Formatter, Write};
use ts_packet::{SIZE, SYNC};

// The bytes of a unit that are looked at: those of a transport packet's header.
const HEADER: usize = 4;

// What of a header tells that a unit carries T2-MI: sync byte, error indicator, PID, scrambling, and whether there is a
// payload; and how it reads, the PID aside.
const MASK: u32 = 0xFF9F_FFD0;

const PLAIN: u32 = 0x4700_0010;

// The same of an idle unit, which has no payload and says that a feed is silent.
const IDLE_MASK: u32 = 0xFF9F_FFF0;

const IDLE: u32 = 0x4700_0020;

// How many units without a sync byte are looked behind at most.
const MOST_LOOKS: u64 = 8;

// What may have come if most units do not begin as packets do.
const NO_PACKETS: &str =
    "packets of 192 or 204 bytes, bytes lost, or no transport stream: share/cut/cut.py in front makes whole packets";

// From so many units on it is told of a feed that none of them can carry T2-MI.
const MANY: u64 = 10_000;

/// How many came of a kind, and the byte at which the first one begins.
#[derive(Clone, Copy)]
pub struct Tally {
    pub count: u64,
    pub first: u64,
}

impl Tally {
    fn new() -> Tally {
        Tally { count: 0, first: 0 }
    }

    fn note(&mut self, place: u64) {
        if self.count == 0 {
            self.first = place;
        }
        self.count = self.count.saturating_add(1);
    }
}

/// A place at which no unit begins, and how far behind it one does: bytes were lost or added before.
#[derive(Clone, Copy)]
pub struct Slip {
    place: u64,
    // How far behind it the next unit begins.
    distance: usize,
}

/// The units of a stream, counted, and those that are passed over.
#[derive(Drop)]
pub struct UnitCounts {
    // The PID of T2-MI, if it is known.
    pid: Option<u32>,
    // Where the unit under way begins, how much of it came, and its last bytes that were looked at.
    place: u64,
    came: usize,
    header: u32,
    // What the header of a unit on the PID reads under the mask, and the continuity counter that comes next there.
    plain: Option<u32>,
    next: Option<u32>,
    // How that of an idle unit reads, if these are looked for, and whether the last unit on the PID is idle.
    idle_plain: Option<u32>,
    is_silent: bool,
    no_sync: Tally,
    other_pid: Tally,
    // Those on the PID that are marked as wrong or scrambled, or have no payload.
    unread: Tally,
    idle: Tally,
    jumps: Tally,
    slip: Option<Slip>,
}

/// The units of a stream that goes on: the last one is under way, and not cut off.
#[derive(Clone, Copy)]
pub struct SoFar<'a>(pub &'a UnitCounts);

// Whether units begin at the front: some sync bytes stand there, 188 bytes apart.
fn begins_units(bytes: &[u8]) -> bool {
    [0, SIZE, 2 * SIZE]
        .iter()
        .all(|place| bytes.get(*place) == Some(&SYNC))
}

// How far behind the front units begin, if less than one is between.
fn distance_in(bytes: &[u8]) -> Option<usize> {
    for distance in 1..SIZE {
        if begins_units(bytes.get(distance..).unwrap_or(&[])) {
            return Some(distance);
        }
    }
    None
}

impl UnitCounts {
    /// Nothing came.
    pub fn new(pid: Option<u16>) -> UnitCounts {
        UnitCounts {
            pid: pid.map(|pid| u32::from(pid)),
            place: 0,
            came: 0,
            header: 0,
            plain: pid.map(|pid| PLAIN | u32::from(pid) << 8),
            next: None,
            idle_plain: None,
            is_silent: false,
            no_sync: Tally::new(),
            other_pid: Tally::new(),
            unread: Tally::new(),
            idle: Tally::new(),
            jumps: Tally::new(),
            slip: None,
        }
    }

    /// Nothing came of a feed that may say that it is silent.
    pub fn of_feed(pid: Option<u16>) -> UnitCounts {
        UnitCounts {
            idle_plain: pid.map(|pid| IDLE | u32::from(pid) << 8),
            ..UnitCounts::new(pid)
        }
    }

    // A unit begins, with these bytes.
    fn note(&mut self, header: u32) {
        if Some(header & MASK) == self.plain {
            self.note_counter(header & 15);
            self.is_silent = false;
        } else if Some(header & IDLE_MASK) == self.idle_plain {
            self.idle.note(self.place);
            self.is_silent = true;
        } else {
            self.note_passed_over(header);
        }
    }

    fn note_counter(&mut self, counter: u32) {
        if self.next.map_or(false, |next| next != counter) {
            self.jumps.note(self.place);
        }
        self.next = Some(counter.wrapping_add(1) & 15);
    }

    fn note_passed_over(&mut self, header: u32) {
        if header >> 24 != u32::from(SYNC) {
            self.no_sync.note(self.place);
        } else if let Some(pid) = self.pid {
            // If it is on the PID, only its marks differ.
            if header >> 8 & 0x1FFF != pid {
                self.other_pid.note(self.place);
            } else {
                self.unread.note(self.place);
            }
        }
    }

    // Takes bytes of the unit under way, up to its end at most.
    fn go_on(&mut self, bytes: &[u8]) {
        for byte in bytes.iter().take(HEADER.saturating_sub(self.came)) {
            self.header = self.header << 8 | u32::from(*byte);
        }
        self.came = self.came.saturating_add(bytes.len());
        if self.came >= SIZE {
            self.came = 0;
            self.pass(self.header);
        }
    }

    // A whole unit came, with this header.
    fn pass(&mut self, header: u32) {
        self.note(header);
        self.place = self.place.saturating_add(SIZE as u64);
    }

    // Looks for units in the bytes from one on that has no sync byte.
    #[cold]
    fn look_behind(&mut self, bytes: &[u8]) {
        if self.slip.is_none() && self.no_sync.count < MOST_LOOKS {
            let place = self.place;
            self.slip = distance_in(bytes).map(|distance| Slip { place, distance });
        }
    }

    /// Takes bytes, any number.
    pub fn take(&mut self, piece: &[u8]) {
        let lacks = if self.came == 0 {
            0
        } else {
            SIZE.saturating_sub(self.came)
        };
        let (front, rest) = piece.split_at(lacks.min(piece.len()));
        self.go_on(front);
        for (number, unit) in rest.chunks(SIZE).enumerate() {
            if unit.first() != Some(&SYNC) {
                self.look_behind(rest.get(number.saturating_mul(SIZE)..).unwrap_or(&[]));
            }
            match unit {
                [a, b, c, d, ..] if unit.len() == SIZE => self.pass(u32::from_be_bytes([
                    *a, *b, *c, *d,
                ])),
                _ => self.go_on(unit),
            }
        }
    }

    // How many came whole.
    fn units(&self) -> u64 {
        self.place / SIZE as u64
    }

    // How many are on the PID.
    fn on_pid(&self) -> u64 {
        self.units()
            .saturating_sub(self.no_sync.count)
            .saturating_sub(self.other_pid.count)
    }

    /// Whether it is known which units carry T2-MI, so that their counters are followed.
    pub fn is_followed(&self) -> bool {
        self.pid.is_some()
    }

    // How many of these carry no T2-MI.
    fn without_t2mi(&self) -> u64 {
        self.unread.count.saturating_add(self.idle.count)
    }

    /// Whether none of them can carry T2-MI, by their first bytes.
    pub fn has_none(&self) -> bool {
        self.without_t2mi() >= self.on_pid()
    }

    /// Whether many came of a feed, and none of them can.
    pub fn is_foreign(&self) -> bool {
        self.idle_plain.is_some() && self.has_none() && self.units() >= MANY
    }

    /// Whether the last one on the PID says that the feed is silent.
    pub fn is_silent(&self) -> bool {
        self.is_silent
    }

    /// How many say so.
    pub fn idle(&self) -> u64 {
        self.idle.count
    }

    /// Whether all came whole, on the PID none was passed over, and no counter jumps. A stream may have other PIDs
    /// besides.
    pub fn is_clean(&self) -> bool {
        self.came == 0
            && self.no_sync.count == 0
            && self.without_t2mi() == 0
            && self.jumps.count == 0
    }

    /// How many of those that can be T2-MI were passed over, and jumps of the counter.
    pub fn damaged(&self) -> u64 {
        let passed_over = self.no_sync.count.saturating_add(self.unread.count);
        passed_over.saturating_add(self.jumps.count)
    }

    // Whether most of them do not begin as packets do.
    fn lacks_sync(&self) -> bool {
        self.no_sync.count > self.units() / 2
    }

    // Writes which of them were passed over, and where counters jump.
    fn write_damage<W: Write>(&self, f: &mut Formatter<W>) -> fmt::Result {
        write_tally(f, "not beginning with 0x47", self.no_sync)?;
        if let Some(slip) = self.slip {
            write!(f, "; {slip}")?;
        } else if self.lacks_sync() {
            write!(f, "; {NO_PACKETS}")?;
        }
        write_tally(f, "of other PIDs", self.other_pid)?;
        write_tally(f, "marked as wrong or scrambled, or empty", self.unread)?;
        write_tally(f, "idle", self.idle)?;
        write_tally(f, "jumps of the continuity counter", self.jumps)
    }

    /// Why no superframe was found in them, as far as they tell it.
    pub fn why_none(&self) -> &'static str {
        if self.units() == 0 {
            "it has no unit of 188 bytes"
        } else if self.lacks_sync() {
            "most of its units do not begin with 0x47"
        } else if self.pid.is_none() {
            "CONFIG is not read twice, so it is not known which units are on its PID; `show t2mi` tells which PIDs come"
        } else if self.on_pid() == 0 {
            "none of its units is on the PID of CONFIG; `show t2mi` tells which PIDs come"
        } else if self.idle.count == self.on_pid() {
            "all its units on the PID are idle: the feed was silent; see the link"
        } else if self.without_t2mi() == self.on_pid() {
            "all units on the PID are marked as wrong or scrambled, or have no payload"
        } else {
            "units come on the PID: their L1 or timestamps are not those of CONFIG, or no first frame of a superframe came whole"
        }
    }
}

// A part of a list: what they are, how many, and where the first one begins.
fn write_tally<W: Write>(f: &mut Formatter<W>, what: &str, tally: Tally) -> fmt::Result {
    if tally.count == 0 {
        return Ok(());
    }
    write!(
        f,
        "; {what}: {}, first at byte {}",
        tally.count, tally.first
    )
}

impl Display for Slip {
    fn fmt<W: Write>(&self, f: &mut Formatter<W>) -> fmt::Result {
        write!(
            f,
            "at byte {} no unit begins, and one does {} bytes on: bytes were lost or added before; share/cut/cut.py in front goes on there",
            self.place, self.distance
        )
    }
}

impl Display for UnitCounts {
    fn fmt<W: Write>(&self, f: &mut Formatter<W>) -> fmt::Result {
        write!(f, "{} units", self.units())?;
        if self.came > 0 {
            write!(f, "; the last one is cut off behind {} bytes", self.came)?;
        }
        self.write_damage(f)
    }
}

impl Display for SoFar<'_> {
    fn fmt<W: Write>(&self, f: &mut Formatter<W>) -> fmt::Result {
        write!(f, "{} units", self.0.units())?;
        self.0.write_damage(f)
    }
}
