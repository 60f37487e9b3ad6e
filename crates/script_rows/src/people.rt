// Runs that are watched, and what people are told of them.
use desk_watch::Watched;
use plp_config::{Plan, fits, validate};
use ports::MemoryDesk;
use site_console::{counts_of, say_counts};
use site_top::{Outcome, Word, request_of, run};
use std::alloc::{AllocError, Global};
use std::cell::RefCell;
use std::fmt::Display;
use std::io::{self, Eprint, ErrorKind};
use std::mem;
use std::time::{Clock, Duration};

/// Keeps what people are told. Its clock stands still.
#[derive(Drop)]
pub(crate) struct Heard {
    alloc: Global,
    text: RefCell<String>,
}

impl Heard {
    /// Nothing yet.
    pub(crate) fn new(alloc: Global) -> Heard {
        Heard {
            alloc,
            text: RefCell::new(String::new(alloc)),
        }
    }

    /// What people were told.
    pub(crate) fn text(&self) -> Result<String, AllocError> {
        match self.text.try_borrow() {
            Ok(text) => String::from_str(self.alloc, text.as_str()),
            Err(_) => Err(AllocError),
        }
    }
}

impl Eprint for Heard {
    fn eprint<D: Display + Drop>(&self, value: D) -> io::Result<()> {
        let text = format!(in self.alloc; "{value}")?;
        let Ok(mut heard) = self.text.try_borrow_mut() else {
            return Err(io::Error::from(ErrorKind::BrokenPipe));
        };
        heard.push_str(text.as_str())?;
        Ok(())
    }

    fn eprintln<D: Display + Drop>(&self, value: D) -> io::Result<()> {
        self.eprint(value)?;
        self.eprint("\n")
    }
}

impl Clock for Heard {
    fn monotonic(&self) -> io::Result<Duration> {
        Ok(Duration::from_secs(0))
    }

    fn since_1970(&self) -> io::Result<Duration> {
        self.monotonic()
    }
}

/// The plan of a configuration, if a text is one.
pub(crate) fn plan_of(alloc: Global, text: &[u8]) -> Option<Plan> {
    let config = config_text::read(alloc, text).ok()?;
    fits(validate(config).ok()?).ok()
}

/// Runs a command over a desk that is watched, and gives the desk back, and how the run ended. What people are told is
/// kept.
pub(crate) fn run_watched<'a>(
    alloc: Global,
    heard: &'a Heard,
    desk: MemoryDesk,
    words: &'a [Word],
    plan: Option<&'a Plan>,
) -> (MemoryDesk, Outcome) {
    let counts = counts_of(alloc, request_of(words), plan);
    let mut watched = Watched::new(desk, heard, false, counts);
    let outcome = run(alloc, words, &mut watched);
    let _ = say_counts(heard, &watched.counts, outcome);
    let desk = mem::replace(&mut watched.desk, MemoryDesk::new(alloc));
    (desk, outcome)
}
