// A line that is put together without memory.
ghost use Rattle.std.specs.Prelude.{◌≡◌, ◌↔◌, ◌+◌, ◌≤◌, ◌++◌, [], length, IsTrue};
ghost use Rattle.std.specs.Fmt.{decimal};
ghost use Rattle.hex.specs.Hex.{encode_lower};

use itoa::Buffer;
use std::marker::Model;

/// Room for the longest line, in bytes.
pub const ROOM: usize = 384;

/// A line of at most [`ROOM`] bytes, seen as its bytes.
#[derive(Drop)]
pub struct Line {
    bytes: [u8; ROOM],
    len: usize,
}

impl Model for Line {
    ghost use Rattle.std.specs.Prelude.{◌≤◌, List, ℕ, take};
    ghost use Rattle.file_run.specs.declared.line.TheConstants.{ROOM};

    ghost Value = { List ℕ };

    ghost view = { λ l. take l.len l.bytes };

    ghost invariant = { λ l. l.len ≤ ROOM };
}

impl Line {
    /// A line with nothing in it.
    pub fn new() -> Line
        ensures { result ≡ [] }
    {
        Line {
            bytes: [0; ROOM],
            len: 0,
        }
    }

    /// The number of its bytes.
    pub fn len(&self) -> usize
        ensures len { result ≡ length self.now }
        ensures room { result ≤ ROOM }
    {
        self.len
    }

    /// Whether nothing is in it.
    pub fn is_empty(&self) -> bool
        ensures { IsTrue result ↔ (self.now ≡ []) }
    {
        self.len == 0
    }

    /// Forgets them.
    pub fn clear(&mut self)
        ensures { self.new ≡ [] }
    {
        self.len = 0;
    }

    /// Adds a text at the end.
    pub fn push(&mut self, text: &[u8])
        requires { length self.old + length text.now ≤ ROOM }
        ensures text { self.new ≡ self.old ++ text.now }
        ensures len { length self.new ≡ length self.old + length text.now }
    {
        let end = self.len + text.len();
        self.bytes[self.len..end].copy_from_slice(text);
        self.len = end;
    }

    /// Adds a number in decimal.
    pub fn push_number(&mut self, number: u64)
        requires { length self.old + 20 ≤ ROOM }
        ensures text { self.new ≡ self.old ++ decimal number }
        ensures len { length self.new ≤ length self.old + 20 }
    {
        let mut buffer = Buffer::new();
        self.push(buffer.format(number).as_bytes());
    }

    /// Adds bytes in hexadecimal, in lower case.
    pub fn push_hex(&mut self, bytes: &[u8])
        requires few { length bytes.now ≤ 8 }
        requires room { length self.old + 16 ≤ ROOM }
        ensures text { self.new ≡ self.old ++ encode_lower bytes.now }
        ensures len { length self.new ≤ length self.old + 16 }
    {
        let mut digits = [0; 16];
        let digits = &mut digits[..2 * bytes.len()];
        if hex::encode_to_slice(bytes, digits).is_ok() {
            self.push(digits);
        }
    }

    /// Adds a key and a number in decimal.
    pub fn push_field(&mut self, key: &[u8], number: u64)
        requires { length self.old + length key.now + 20 ≤ ROOM }
        ensures text { self.new ≡ self.old ++ key.now ++ decimal number }
        ensures len { length self.new ≤ length self.old + length key.now + 20 }
    {
        self.push(key);
        self.push_number(number);
    }

    /// The line's bytes.
    pub fn as_bytes(&self) -> &[u8]
        ensures { result.now ≡ self.now }
    {
        &self.bytes[..self.len]
    }
}
