// What is told of a run while it goes on: that frames begin to be muted and come again, that units are damaged, and
// what becomes of feeds.
use crate::counts::{OutCounts, RunCounts};
use crate::records::RecordCounts;
use ports::MOST_FEEDS;
use std::io::{self, Eprint};

// How it is told that a feed gives nothing that fits CONFIG.
const NOTHING_FITS: &str = "nothing that fits CONFIG came: ";

/// What is worth a line at once.
#[derive(Clone, Copy, PartialEq, Eq)]
pub struct Alarm {
    /// How many frames are muted.
    pub muted: u64,
    /// Whether the last one is.
    pub is_muted: bool,
    /// How many units of each feed were lost or passed over, as far as they tell it.
    pub damaged: [u64; MOST_FEEDS],
    /// Which feeds are silent.
    pub silent: Feeds,
    /// Which feeds gave much, and nothing that fits CONFIG.
    pub foreign: Feeds,
    /// Which feeds have not whole what another one has.
    pub behind: Feeds,
    /// How many frames no feed had whole.
    pub lacked: u64,
    /// Which feeds have timestamps of other moments.
    pub shifted: Feeds,
}

/// Some of the inputs of a run, by their places.
#[derive(Clone, Copy, PartialEq, Eq)]
pub struct Feeds([bool; MOST_FEEDS]);

impl Feeds {
    /// None of them.
    pub const NONE: Feeds = Feeds([false; MOST_FEEDS]);

    /// The one at a place is among them from now on, or is not.
    pub fn set(&mut self, place: usize, has: bool) {
        if let Some(is) = self.0.get_mut(place) {
            *is = has;
        }
    }

    fn has(&self, place: usize) -> bool {
        self.0.get(place).copied().unwrap_or(false)
    }
}

// Whether the count at a place rose.
fn is_more(now: &[u64; MOST_FEEDS], before: &[u64; MOST_FEEDS], place: usize) -> bool {
    match (now.get(place), before.get(place)) {
        (Some(now), Some(before)) => now > before,
        _ => false,
    }
}

impl Alarm {
    /// Nothing was wrong.
    pub fn new() -> Alarm {
        Alarm {
            muted: 0,
            is_muted: false,
            damaged: [0; MOST_FEEDS],
            silent: Feeds::NONE,
            foreign: Feeds::NONE,
            behind: Feeds::NONE,
            lacked: 0,
            shifted: Feeds::NONE,
        }
    }
}

impl RunCounts<'_> {
    // The records that are written, or else read.
    fn records(&self) -> Option<&RecordCounts<'_>> {
        match &self.out {
            OutCounts::Records(records) => Some(records),
            _ => self.inputs.first()?.records(),
        }
    }

    /// How many frames were written or read, if they are counted.
    pub fn frames(&self) -> Option<u64> {
        match &self.out {
            OutCounts::T2mi(sent) => Some(sent.frames()),
            _ => self.records().map(|records| records.count()),
        }
    }

    // The feeds that are silent.
    fn silent(&self) -> Feeds {
        let mut feeds = Feeds::NONE;
        for (is, input) in feeds.0.iter_mut().zip(self.inputs.as_slice()) {
            *is = input.is_silent();
        }
        feeds
    }

    // Those that gave much and nothing that fits CONFIG.
    fn foreign(&self) -> Feeds {
        let mut feeds = Feeds::NONE;
        for (is, input) in feeds.0.iter_mut().zip(self.inputs.as_slice()) {
            *is = input.is_foreign();
        }
        feeds
    }

    // No other input than a feed has units.
    fn damaged(&self) -> [u64; MOST_FEEDS] {
        let mut counts = [0; MOST_FEEDS];
        for (count, input) in counts.iter_mut().zip(self.inputs.as_slice()) {
            *count = input.damaged_units();
        }
        counts
    }

    /// What is wrong by now.
    pub fn alarm(&self) -> Alarm {
        let records = self.records();
        Alarm {
            muted: records.map_or(0, |records| records.muted().count()),
            is_muted: records.map_or(false, |records| records.ends_muted(1)),
            damaged: self.damaged(),
            silent: self.silent(),
            foreign: self.foreign(),
            behind: self.notes.behind(),
            lacked: self.notes.of_none().map_or(0, |lacked| lacked.count),
            shifted: self.notes.shifted(),
        }
    }

    // Says that frames begin to be muted, or come again.
    fn say_muting(&self, rt: &impl Eprint, before: Alarm, now: Alarm) -> io::Result<()> {
        let Some(records) = self.records() else {
            return Ok(());
        };
        let last = records.muted().last();
        if now.is_muted && !before.is_muted {
            return eprintln!(rt;
                "frames are muted now; the first of them is record {}",
                records.muted().last_begins()
            );
        }
        if !now.is_muted && (before.is_muted || now.muted > before.muted) {
            return eprintln!(rt;
                "frames come again behind record {last}; muted so far: {}",
                now.muted
            );
        }
        Ok(())
    }

    // Says which feeds fell silent or come again, which give nothing that fits CONFIG, which fell behind or are whole
    // again, and which have timestamps of other moments.
    fn say_feeds_now(&self, rt: &impl Eprint, before: Alarm, now: Alarm) -> io::Result<()> {
        for (place, input) in self.inputs.as_slice().iter().enumerate() {
            if now.silent.has(place) != before.silent.has(place) {
                input.say_silence(rt)?;
            }
            if now.foreign.has(place) && !before.foreign.has(place) {
                input.say_none(rt, NOTHING_FITS)?;
            }
            if now.behind.has(place) != before.behind.has(place) {
                self.say_behind(rt, place, input, now.behind.has(place))?;
            }
            if now.shifted.has(place) && !before.shifted.has(place) {
                self.say_moments_now(rt, place, input)?;
            }
        }
        Ok(())
    }

    /// Says what is new since this was wrong.
    pub fn say_news(&self, rt: &impl Eprint, before: Alarm) -> io::Result<()> {
        let now = self.alarm();
        for (place, input) in self.inputs.as_slice().iter().enumerate() {
            if is_more(&now.damaged, &before.damaged, place) {
                input.say_damaged_units(rt)?;
            }
        }
        self.say_feeds_now(rt, before, now)?;
        if now.lacked > before.lacked {
            self.say_lacked_now(rt)?;
        }
        self.say_muting(rt, before, now)
    }
}
