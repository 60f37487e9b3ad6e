// The program's endings, and what it tells people. Files are real ones; standard output and standard error are kept
// here.
mod endings;
mod looked_at;
mod streams;
mod watched;

use bit_slice::OutOfMemory;
use site_top::Word;
use std::alloc::{Alloc, Allocator, Global};
use std::cell::{Cell, RefCell};
use std::fmt::Display;
use std::fs::{Files, Metadata, OpenOptions};
use std::io::{self, Eprint, ErrorKind, Print};
use std::process::Abort;
use std::time::{Clock, Duration};

// A runtime over another one, whose standard output takes all or nothing, whose standard error is kept, and whose clock
// is a second later each time that it is looked at.
#[derive(Drop)]
struct Outside<R> {
    rt: R,
    takes: bool,
    heard: RefCell<String>,
    seconds: Cell<u64>,
}

impl<R: AllocGlobal> Outside<R> {
    fn new(rt: R, takes: bool) -> Outside<R> {
        let heard = RefCell::new(String::new(rt.alloc()));
        Outside {
            rt,
            takes,
            heard,
            seconds: Cell::new(0),
        }
    }

    // Whether standard error has this text.
    fn has_heard(&self, text: &str) -> bool {
        self.heard
            .try_borrow()
            .map_or(false, |heard| heard.as_str() == text)
    }

    // Whether its first line begins so.
    fn has_begun(&self, text: &str) -> bool {
        self.heard
            .try_borrow()
            .map_or(false, |heard| heard.as_str().starts_with(text))
    }
}

impl<R: AllocGlobal> Alloc for Outside<R> {
    type A = Global;

    fn alloc(&self) -> Global {
        self.rt.alloc()
    }
}

fn closed() -> io::Error {
    io::Error::from(ErrorKind::BrokenPipe)
}

impl<R> Print for Outside<R> {
    fn print<D: Display + Drop>(&self, _value: D) -> io::Result<()> {
        if self.takes { Ok(()) } else { Err(closed()) }
    }

    fn println<D: Display + Drop>(&self, _value: D) -> io::Result<()> {
        if self.takes { Ok(()) } else { Err(closed()) }
    }

    fn write_all(&self, _bytes: &[u8]) -> io::Result<()> {
        if self.takes { Ok(()) } else { Err(closed()) }
    }
}

impl<R: AllocGlobal> Eprint for Outside<R> {
    fn eprint<D: Display + Drop>(&self, value: D) -> io::Result<()> {
        let text = format!(in self.rt.alloc(); "{value}")?;
        let Ok(mut heard) = self.heard.try_borrow_mut() else {
            return Err(closed());
        };
        heard.push_str(text.as_str())?;
        Ok(())
    }

    fn eprintln<D: Display + Drop>(&self, value: D) -> io::Result<()> {
        self.eprint(value)?;
        self.eprint("\n")
    }
}

impl<R> Clock for Outside<R> {
    fn monotonic(&self) -> io::Result<Duration> {
        let now = self.seconds.get();
        self.seconds.set(now.saturating_add(1));
        Ok(Duration::from_secs(now))
    }

    fn since_1970(&self) -> io::Result<Duration> {
        self.monotonic()
    }
}

impl<R: Files> Files for Outside<R> {
    type File = R::File;

    type Dir = R::Dir;

    fn open_file(&self, how: &OpenOptions, path: &str) -> io::Result<R::File> {
        self.rt.open_file(how, path)
    }

    fn open_dir(&self, path: &str) -> io::Result<R::Dir> {
        self.rt.open_dir(path)
    }

    fn metadata(&self, path: &str) -> io::Result<Metadata> {
        self.rt.metadata(path)
    }

    fn symlink_metadata(&self, path: &str) -> io::Result<Metadata> {
        self.rt.symlink_metadata(path)
    }

    fn copy(&self, from: &str, to: &str) -> io::Result<u64> {
        self.rt.copy(from, to)
    }

    fn rename(&self, from: &str, to: &str) -> io::Result<()> {
        self.rt.rename(from, to)
    }

    fn remove_file(&self, path: &str) -> io::Result<()> {
        self.rt.remove_file(path)
    }

    fn create_dir(&self, path: &str) -> io::Result<()> {
        self.rt.create_dir(path)
    }

    fn remove_dir(&self, path: &str) -> io::Result<()> {
        self.rt.remove_dir(path)
    }

    fn remove_dir_all<B: Allocator>(&self, alloc: B, path: &str) -> io::Result<()> {
        self.rt.remove_dir_all(alloc, path)
    }
}

fn words_from(alloc: Global, texts: &[&str]) -> Result<Vec<Word>, OutOfMemory> {
    let mut words = Vec::new(alloc);
    for text in texts {
        words.push(Word::new(alloc, text)?)?;
    }
    Ok(words)
}

// A network of one PLP of 2 Mbit/s, with frames of 100,000 ticks of 8 MHz.
const CONFIG: &str = "t2-gateway 1
bandwidth 8
frame 100000 2 40000
start 700000000 0 5
pid 256
network 1 2 3 474000000
l1 0 6 1 0 1 0 0 1000 6 0 59 0
subslices 1
plp 0 type1 1 1/2 qpsk short 0 4 1 delete 2000000
";
