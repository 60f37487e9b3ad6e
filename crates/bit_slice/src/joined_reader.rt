//! A source over two runs of bits.
use crate::{BitSource, Joined, Short};
use std::marker::Model;

/// A source over two runs of bits, seen as the bits left.
#[derive(Drop)]
pub struct JoinedReader<'a> {
    bits: Joined<'a>,
}

impl<'a> Model for JoinedReader<'a> {
    ghost use Rattle.std.specs.Prelude.{List, Bool};

    ghost Value = { List Bool };

    ghost view = { λ r. r.bits };
}

impl<'a> JoinedReader<'a> {
    ghost use Rattle.std.specs.Prelude.{◌≡◌};

    /// A source with all these bits left.
    pub fn new(bits: Joined<'a>) -> JoinedReader<'a>
        ensures { result ≡ bits.entry }
    {
        JoinedReader { bits }
    }
}

impl<'a> BitSource<'a> for JoinedReader<'a> {
    ghost left = { λ r. r };

    fn take(&mut self, width: u32) -> Result<u64, Short> {
        let (left, count) = (self.bits.len(), width as usize);
        if count > left {
            return Err(Short { left: left as u64 });
        }
        let value = self.bits.field(0, width);
        self.bits = self.bits.sub(count, left - count);
        Ok(value)
    }

    fn take_slice(&mut self, len: usize) -> Result<Joined<'a>, Short> {
        let left = self.bits.len();
        if len > left {
            return Err(Short { left: left as u64 });
        }
        let taken = self.bits.sub(0, len);
        self.bits = self.bits.sub(len, left - len);
        Ok(taken)
    }
}
