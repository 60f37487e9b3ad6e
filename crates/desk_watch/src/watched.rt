// A desk that is watched.
ghost use Rattle.std.specs.Prelude.{◌<◌};

use crate::counts::RunCounts;
use crate::progress::Progress;
use ports::{Desk, DeskFault, Note};
use std::io::Eprint;
use std::time::Clock;

// How many lines end in a text.
fn lines_in(text: &[u8]) -> u64 {
    text.iter().filter(|byte| **byte == b'\n').count() as u64
}

/// A desk whose moves are counted and told on standard error: how far they are in one line that is renewed twice a
/// second at most, and what is wrong at once: once a second at most, a line for each feed that has news.
#[derive(Drop)]
pub struct Watched<'a, D, R> {
    pub desk: D,
    progress: Progress<'a, R>,
    /// What was counted.
    pub counts: RunCounts<'a>,
    /// How many lines were said.
    pub lines: u64,
}

impl<'a, D, R: Clock + Eprint> Watched<'a, D, R> {
    /// A desk whose moves are counted from now on. How far they are is told if this is wanted.
    pub fn new(desk: D, rt: &'a R, wanted: bool, counts: RunCounts<'a>) -> Watched<'a, D, R> {
        Watched {
            desk,
            progress: Progress::new(rt, wanted),
            counts,
            lines: 0,
        }
    }

    /// Wipes the line away.
    pub fn wipe(&mut self) {
        self.progress.wipe();
    }
}

// All is done by the desk that is watched.
impl<D: Desk, R: Clock + Eprint> Desk for Watched<'_, D, R> {
    ghost state = { λ w. D.state w.desk };

    fn open(&mut self, name: &str) -> Result<u32, DeskFault> {
        self.desk.open(name)
    }

    // What is new is told before the file is waited for: the notes of a run come then.
    fn read(&mut self, handle: u32, buffer: &mut [u8]) -> Result<usize, DeskFault> {
        self.progress.alarm(&self.counts);
        let count = self.desk.read(handle, buffer)?;
        self.counts.read(handle, buffer.get(..count).unwrap_or(&[]));
        self.progress.read(count, &self.counts);
        Ok(count)
    }

    fn create(&mut self, name: &str) -> Result<u32, DeskFault> {
        self.desk.create(name)
    }

    fn write(&mut self, out: u32, piece: &[u8]) -> Result<usize, DeskFault> {
        let count = self.desk.write(out, piece)?;
        self.counts.wrote(piece.get(..count).unwrap_or(piece));
        self.progress.wrote(count, &self.counts);
        Ok(count)
    }

    fn say(&mut self, text: &[u8]) -> Result<(), DeskFault> {
        self.progress.wipe();
        self.lines = self.lines.saturating_add(lines_in(text));
        self.counts.said(text);
        self.desk.say(text)
    }

    fn say_last(&mut self, text: &[u8]) {
        self.progress.wipe();
        self.desk.say_last(text);
    }

    fn note(&mut self, note: Note) {
        self.counts.note(note);
        self.desk.note(note);
    }
}
