// A desk in memory, on which commands are run.
ghost use Rattle.std.specs.Prelude.{◌<◌};

use crate::people::{Heard, plan_of, run_watched};
use plp_config::Plan;
use ports::{CallKind, MemoryDesk};
use site_top::{Outcome, Word, run};
use std::alloc::{AllocError, Global};
use std::marker::Model;
use std::mem;

/// A desk in memory, on which commands are run.
///
/// The contracts of the desk and of a command are large, and what calls them has all that they say in its own proof. So
/// a script calls the methods of a bench, which have no `ensures`, and its model tells nothing.
#[derive(Drop)]
pub(crate) struct Bench {
    alloc: Global,
    desk: MemoryDesk,
    // How much was said before the last command.
    before: usize,
}

impl Model for Bench {
    ghost Value = { Unit };

    ghost view = { λ _. tt };
}

// The words of a command, which stand between spaces; `-` is the empty word.
fn words_of(alloc: Global, text: &str) -> Result<Vec<Word>, AllocError> {
    let mut list = Vec::new(alloc);
    for word in text.split(' ') {
        list.push(word_of(alloc, word)?)?;
    }
    Ok(list)
}

fn word_of(alloc: Global, text: &str) -> Result<Word, AllocError> {
    let text = if text == "-" { "" } else { text };
    match Word::new(alloc, text) {
        Ok(word) => Ok(word),
        Err(_) => Err(AllocError),
    }
}

impl Bench {
    /// A bench with no file.
    pub(crate) fn new(alloc: Global) -> Bench {
        Bench {
            alloc,
            desk: MemoryDesk::new(alloc),
            before: 0,
        }
    }

    /// Where its memory is from.
    pub(crate) fn alloc(&self) -> Global {
        self.alloc
    }

    /// Sets a file.
    pub(crate) fn put(&mut self, name: &str, bytes: &[u8]) -> Result<(), AllocError> {
        match self.desk.put_file(name, bytes) {
            Ok(()) => Ok(()),
            Err(_) => Err(AllocError),
        }
    }

    /// Makes each read and write from now on move at most so many bytes.
    pub(crate) fn cap(&mut self, most: usize)
        requires { 0 < most }
    {
        self.desk.cap(most);
    }

    /// Makes a call fail: the nth of its kind.
    pub(crate) fn fail(&mut self, kind: CallKind, nth: u64) -> Result<(), AllocError> {
        match self.desk.fail(kind, nth) {
            Ok(()) => Ok(()),
            Err(_) => Err(AllocError),
        }
    }

    /// Runs the command that these words name.
    pub(crate) fn run(&mut self, words: &str) -> Result<Outcome, AllocError> {
        let list = words_of(self.alloc, words)?;
        self.before = self.desk.said().len();
        Ok(run(self.alloc, list.as_slice(), &mut self.desk))
    }

    // The plan of the first file that words name and that spells a configuration.
    fn plan_of(&self, words: &str) -> Option<Plan> {
        for word in words.split(' ') {
            if let Some(plan) = plan_of(self.alloc, self.bytes(word)) {
                return Some(plan);
            }
        }
        None
    }

    /// Runs the command that these words name, watched: how it ended, and what people are told. Nothing may have been
    /// opened before.
    pub(crate) fn run_watched(&mut self, words: &str) -> Result<(Outcome, String), AllocError> {
        let list = words_of(self.alloc, words)?;
        let plan = self.plan_of(words);
        let desk = mem::replace(&mut self.desk, MemoryDesk::new(self.alloc));
        let heard = Heard::new(self.alloc);
        let words = list.as_slice();
        let (desk, outcome) = run_watched(self.alloc, &heard, desk, words, plan.as_ref());
        self.desk = desk;
        Ok((outcome, heard.text()?))
    }

    /// A bench with the files that words name, on which nothing was done.
    pub(crate) fn copy(&self, words: &str) -> Result<Bench, AllocError> {
        let mut bench = Bench::new(self.alloc);
        bench.take(self, words)?;
        Ok(bench)
    }

    /// Takes the files that words name from another bench.
    pub(crate) fn take(&mut self, other: &Bench, words: &str) -> Result<(), AllocError> {
        for name in words.split(' ') {
            if let Some(bytes) = other.file(name) {
                self.put(name, bytes)?;
            }
        }
        Ok(())
    }

    /// What the last command said.
    pub(crate) fn answer(&self) -> &[u8] {
        self.desk.said().get(self.before..).unwrap_or(&[])
    }

    /// How many bytes of a file were given.
    pub(crate) fn given(&self, name: &str) -> u64 {
        self.desk.given(name)
    }

    /// The bytes of a file, if it is there.
    pub(crate) fn file(&self, name: &str) -> Option<&[u8]> {
        self.desk.file(name)
    }

    /// The bytes of a file, none if it is not there.
    pub(crate) fn bytes(&self, name: &str) -> &[u8] {
        self.desk.file(name).unwrap_or(&[])
    }
}

/// The files of a script: definitions, whose names begin with a capital letter, and those of the bench under way.
#[derive(Drop)]
pub(crate) struct Files {
    defined: Bench,
    pub(crate) bench: Bench,
}

fn is_defined(name: &str) -> bool {
    match name.as_bytes().first() {
        Some(first) => first.is_ascii_uppercase(),
        None => false,
    }
}

impl Files {
    pub(crate) fn new(alloc: Global) -> Files {
        Files {
            defined: Bench::new(alloc),
            bench: Bench::new(alloc),
        }
    }

    /// Begins with no file but the definitions.
    pub(crate) fn begin(&mut self) {
        self.bench = Bench::new(self.bench.alloc);
    }

    /// Where its memory is from.
    pub(crate) fn alloc(&self) -> Global {
        self.bench.alloc
    }

    /// Sets a file.
    pub(crate) fn put(&mut self, name: &str, bytes: &[u8]) -> Result<(), AllocError> {
        if is_defined(name) {
            self.defined.put(name, bytes)
        } else {
            self.bench.put(name, bytes)
        }
    }

    /// The bytes of a file, none if it is not there; of `said`, what the last command said.
    pub(crate) fn bytes(&self, name: &str) -> &[u8] {
        if is_defined(name) {
            self.defined.bytes(name)
        } else if name == "said" {
            self.bench.answer()
        } else {
            self.bench.bytes(name)
        }
    }
}
