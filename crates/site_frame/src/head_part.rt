// What came of a head.
ghost use Rattle.std.specs.Prelude.{◌≡◌, ◌+◌, ◌++◌, [], length, min, take};
ghost use Rattle.site_frame.specs.declared.head.TheConstants.{HEAD};

use crate::head::HEAD;
use std::marker::Model;

/// What came of a head, seen as its bytes.
#[derive(Drop)]
pub struct HeadPart {
    bytes: [u8; HEAD],
    len: usize,
}

impl Model for HeadPart {
    ghost use Rattle.std.specs.Prelude.{◌≤◌, List, ℕ, take};
    ghost use Rattle.site_frame.specs.declared.head.TheConstants.{HEAD};

    ghost Value = { List ℕ };

    ghost view = { λ h. take h.len h.bytes };

    ghost invariant = { λ h. h.len ≤ HEAD };
}

impl HeadPart {
    pub fn new() -> HeadPart
        ensures { result ≡ [] }
    {
        HeadPart {
            bytes: [0; HEAD],
            len: 0,
        }
    }

    /// How many bytes are lacking.
    pub fn lacks(&self) -> usize
        ensures { length self.now + result ≡ HEAD }
    {
        HEAD - self.len
    }

    /// Takes bytes up to the end of the head: how many.
    pub fn take(&mut self, bytes: &[u8]) -> usize
        ensures count { length self.old + result ≡ min HEAD (length self.old + length bytes.now) }
        ensures took { self.new ≡ self.old ++ take result bytes.now }
    {
        let count = (HEAD - self.len).min(bytes.len());
        let end = self.len + count;
        self.bytes[self.len..end].copy_from_slice(&bytes[..count]);
        self.len = end;
        count
    }

    /// The whole head.
    pub fn whole(&self) -> [u8; HEAD]
        requires { length self.now ≡ HEAD }
        ensures { result ≡ self.now }
    {
        self.bytes
    }

    /// Forgets the bytes.
    pub fn clear(&mut self)
        ensures { self.new ≡ [] }
    {
        self.len = 0;
    }
}
