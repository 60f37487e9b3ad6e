// A word of the command line.
ghost use Rattle.std.specs.Prelude.{◌≡◌, IfOk};

use bit_slice::OutOfMemory;
use std::alloc::Global;
use std::marker::Model;

/// A word of the command line, seen as its bytes.
#[derive(Drop)]
pub struct Word {
    text: String,
}

impl Model for Word {
    ghost use Rattle.std.specs.Prelude.{List, ℕ, string_bytes};

    ghost Value = { List ℕ };

    ghost view = { λ w. string_bytes w.text };
}

impl Word {
    /// The word of a text. Its one refusal is want of memory.
    pub fn new(alloc: Global, text: &str) -> Result<Word, OutOfMemory>
        ensures { IfOk result (λ w. w ≡ text.now) }
    {
        let text = String::from_str(alloc, text)?;
        Ok(Word { text })
    }

    /// The word's text.
    pub fn as_str(&self) -> &str
        ensures { result.now ≡ self.now }
    {
        self.text.as_str()
    }
}
