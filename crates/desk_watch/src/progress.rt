// How far a run is, and what is wrong, told while it goes on.
use crate::alarm::Alarm;
use crate::counts::RunCounts;
use crate::stream_time::Seconds;
use std::fmt::{self, Display, Formatter, Write};
use std::io::Eprint;
use std::time::{Clock, Duration, Instant};

// How long a run goes on before it is told of, how long a line stands, and how long it is from one word of what is
// wrong to the next, in milliseconds.
const FIRST_AFTER: u64 = 1000;

const NEXT_AFTER: u64 = 500;

const NEWS_AFTER: u64 = 1000;

// To the start of the line, and away with all that stands behind.
const WIPE: &str = "\r\x1b[K";

// From so many bytes on they are told in megabytes.
const MANY: u64 = 10_000_000;

// A day, in seconds.
const DAY: u64 = 86_400;

// Bytes, in kilobytes or megabytes.
#[derive(Clone, Copy)]
struct Bytes(u64);

impl Display for Bytes {
    fn fmt<W: Write>(&self, f: &mut Formatter<W>) -> fmt::Result {
        if self.0 < MANY {
            write!(f, "{} kB", self.0 / 1000)
        } else {
            write!(f, "{} MB", self.0 / 1_000_000)
        }
    }
}

// How many bytes a second that is.
fn rate(bytes: u64, time: Duration) -> u64 {
    let millis = u64::try_from(time.as_millis()).unwrap_or(u64::MAX).max(1);
    bytes.saturating_mul(1000) / millis
}

// The time of day, in UTC.
fn time_of_day(rt: &impl Clock) -> Option<Seconds> {
    let since_1970 = rt.since_1970().ok()?;
    Some(Seconds(since_1970.as_secs() % DAY))
}

// What was moved when a line was told.
#[derive(Clone, Copy)]
struct Moved {
    time: Duration,
    bytes: u64,
}

/// What was moved, and when it is told.
#[derive(Drop)]
pub struct Progress<'a, R> {
    rt: &'a R,
    start: Option<Instant>,
    // Whether it is told how far the run is, when it was told last, and whether the line stands.
    wanted: bool,
    told: Option<Moved>,
    stands: bool,
    // What was wrong when it was said last, and when that was.
    alarm: Alarm,
    alarmed: Option<Duration>,
    read: u64,
    written: u64,
}

// When something is told next that was told last at this time.
fn due(told: Option<Duration>, after: u64) -> Duration {
    match told {
        Some(told) => told.saturating_add(Duration::from_millis(after)),
        None => Duration::from_millis(FIRST_AFTER),
    }
}

impl<'a, R: Clock + Eprint> Progress<'a, R> {
    /// Nothing was moved. How far the run is, is told only if it is wanted.
    pub fn new(rt: &'a R, wanted: bool) -> Progress<'a, R> {
        Progress {
            rt,
            start: Instant::now(rt).ok(),
            wanted,
            told: None,
            stands: false,
            alarm: Alarm::new(),
            alarmed: None,
            read: 0,
            written: 0,
        }
    }

    // How long the run goes on.
    fn time(&self) -> Option<Duration> {
        self.start?.elapsed(self.rt).ok()
    }

    /// Tells what is new, if something is and it is time. Nobody is left to tell of a failure there.
    pub fn alarm(&mut self, counts: &RunCounts<'_>) {
        let alarm = counts.alarm();
        if alarm == self.alarm {
            return;
        }
        let Some(time) = self.time() else {
            return;
        };
        if due(self.alarmed, NEWS_AFTER) <= time {
            self.wipe();
            let _ = counts.say_news(self.rt, self.alarm);
            self.alarm = alarm;
            self.alarmed = Some(time);
        }
    }

    // Tells how far the run is, if it is time.
    fn tell(&mut self, counts: &RunCounts<'_>) {
        if !self.wanted {
            return;
        }
        let Some(time) = self.time() else {
            return;
        };
        if due(self.told.map(|told| told.time), NEXT_AFTER) <= time {
            self.say(time, counts);
            self.told = Some(Moved {
                time,
                bytes: self.read,
            });
            self.stands = true;
        }
    }

    // How many bytes a second were read since a line was told.
    fn rate_since(&self, time: Duration) -> u64 {
        match self.told {
            Some(told) => rate(
                self.read.saturating_sub(told.bytes),
                time.saturating_sub(told.time),
            ),
            None => rate(self.read, time),
        }
    }

    fn say(&self, time: Duration, counts: &RunCounts<'_>) {
        let rate = Bytes(self.rate_since(time));
        let _ = match (counts.frames(), counts.alarm().muted) {
            (None, _) => eprint!(self.rt;
                "{WIPE}{} in, {} out, {rate}/s",
                Bytes(self.read),
                Bytes(self.written)
            ),
            (Some(frames), 0) => eprint!(self.rt; "{WIPE}{frames} frames, {rate}/s"),
            (Some(frames), muted) => eprint!(self.rt; "{WIPE}{muted} muted of {frames}, {rate}/s"),
        };
        if let Some(seconds) = counts.stream_time(self.read, self.written) {
            let _ = eprint!(self.rt; ", {seconds}");
        }
        // Where nothing moves no line is told: so this one tells since when.
        if let Some(seconds) = time_of_day(self.rt) {
            let _ = eprint!(self.rt; ", at {seconds} UTC");
        }
    }

    /// So many bytes more were read.
    pub fn read(&mut self, count: usize, counts: &RunCounts<'_>) {
        self.read = self.read.saturating_add(count as u64);
        self.alarm(counts);
        self.tell(counts);
    }

    /// So many bytes more were written.
    pub fn wrote(&mut self, count: usize, counts: &RunCounts<'_>) {
        self.written = self.written.saturating_add(count as u64);
        self.alarm(counts);
        self.tell(counts);
    }

    /// Wipes the line away, if it stands.
    pub fn wipe(&mut self) {
        if self.stands {
            let _ = eprint!(self.rt; "{WIPE}");
            self.stands = false;
        }
    }
}
