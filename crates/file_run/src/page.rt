// Bytes that wait to be said or written together.
ghost use Rattle.std.specs.Prelude.{◌≡◌, ◌↔◌, IsTrue, ◌+◌, ◌≤◌, ◌++◌, [], length, IfOk};

use bit_slice::OutOfMemory;
use std::alloc::Global;
use std::marker::Model;

/// How many bytes are gathered at most.
pub const PAGE: usize = 131_072;

/// Bytes that wait to be said or written together, seen as a list. After `open` it takes no memory.
#[derive(Drop)]
pub struct Page {
    text: Vec<u8>,
}

impl Model for Page {
    ghost use Rattle.std.specs.Prelude.{◌≤◌, List, ℕ, vec_len, vec_capacity};
    ghost use Rattle.file_run.specs.declared.page.TheConstants.{PAGE};

    ghost Value = { List ℕ };

    ghost view = { λ p. p.text.items };

    ghost invariant = { λ p. (PAGE ≤ vec_capacity p.text) × (vec_len p.text ≤ PAGE) };
}

impl Page {
    /// A page with nothing on it, and its memory. Its one refusal is want of memory.
    pub fn open(alloc: Global) -> Result<Page, OutOfMemory>
        ensures { IfOk result (λ p. p ≡ []) }
    {
        let text = Vec::with_capacity(alloc, PAGE)?;
        Ok(Page { text })
    }

    /// The number of bytes that wait.
    pub fn len(&self) -> usize
        ensures len { result ≡ length self.now }
        ensures room { result ≤ PAGE }
    {
        self.text.len()
    }

    /// Whether nothing waits.
    pub fn is_empty(&self) -> bool
        ensures { IsTrue result ↔ (self.now ≡ []) }
    {
        self.text.is_empty()
    }

    /// Adds bytes, such as a line.
    pub fn push(&mut self, line: &[u8])
        requires { length self.old + length line.now ≤ PAGE }
        ensures text { self.new ≡ self.old ++ line.now }
        ensures len { length self.new ≡ length self.old + length line.now }
    {
        self.text.extend_from_slice(line).unwrap();
    }

    /// Forgets them.
    pub fn clear(&mut self)
        ensures { self.new ≡ [] }
    {
        self.text.clear();
    }

    /// The bytes that wait.
    pub fn as_bytes(&self) -> &[u8]
        ensures { result.now ≡ self.now }
    {
        self.text.as_slice()
    }
}
