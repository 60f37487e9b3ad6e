// Numbers that rise, told as runs.
use std::fmt::{self, Display, Formatter, Write};

// How many runs are told at most.
const MOST_RUNS: usize = 4;

// Numbers in a row, from the first to the last.
#[derive(Clone, Copy)]
struct Run {
    first: u64,
    last: u64,
}

impl Display for Run {
    fn fmt<W: Write>(&self, f: &mut Formatter<W>) -> fmt::Result {
        if self.first == self.last {
            write!(f, "{}", self.first)
        } else {
            write!(f, "{} to {}", self.first, self.last)
        }
    }
}

/// Numbers that rise, as runs of which the first ones are kept.
#[derive(Clone, Copy)]
pub struct Runs {
    kept: [Run; MOST_RUNS],
    // How many runs and numbers there are, and the last run.
    runs: usize,
    count: u64,
    last: Run,
}

impl Runs {
    pub fn new() -> Runs {
        let none = Run { first: 0, last: 0 };
        Runs {
            kept: [none; MOST_RUNS],
            runs: 0,
            count: 0,
            last: none,
        }
    }

    /// How many numbers there are.
    pub fn count(&self) -> u64 {
        self.count
    }

    /// The last number, 0 if there is none.
    pub fn last(&self) -> u64 {
        self.last.last
    }

    /// Where the last run begins.
    pub fn last_begins(&self) -> u64 {
        self.last.first
    }

    // Whether a number is the last one.
    fn ends_with(&self, number: u64) -> bool {
        self.count > 0 && self.last.last == number
    }

    // Whether a number is the next one of the last run.
    fn goes_on(&self, number: u64) -> bool {
        self.count > 0 && self.last.last.checked_add(1) == Some(number)
    }

    fn begin(&mut self, number: u64) {
        self.last = Run {
            first: number,
            last: number,
        };
        self.runs = self.runs.saturating_add(1);
    }

    /// Adds a number that is no less than the last one, which counts once.
    pub fn add(&mut self, number: u64) {
        if self.ends_with(number) {
            return;
        }
        if self.goes_on(number) {
            self.last.last = number;
        } else {
            self.begin(number);
        }
        self.count = self.count.saturating_add(1);
        if let Some(run) = self.kept.get_mut(self.runs.saturating_sub(1)) {
            *run = self.last;
        }
    }

    /// How many numbers stand in a row right before this one.
    pub fn in_a_row_before(&self, end: u64) -> u64 {
        if self.goes_on(end) {
            end.saturating_sub(self.last.first)
        } else {
            0
        }
    }
}

impl Display for Runs {
    fn fmt<W: Write>(&self, f: &mut Formatter<W>) -> fmt::Result {
        let mut before = "";
        for run in self.kept.get(..self.runs.min(MOST_RUNS)).unwrap_or(&[]) {
            write!(f, "{before}{run}")?;
            before = ", ";
        }
        if self.runs > MOST_RUNS {
            write!(
                f,
                " and {} more runs up to {}",
                self.runs - MOST_RUNS,
                self.last.last
            )?;
        }
        Ok(())
    }
}
