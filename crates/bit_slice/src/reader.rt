//! A source over a slice.
use crate::{BitSlice, BitSource, Joined, Short};
use std::marker::Model;

/// A source over a slice, seen as the bits left.
#[derive(Drop)]
pub struct BitReader<'a> {
    bits: BitSlice<'a>,
}

impl<'a> Model for BitReader<'a> {
    ghost use Rattle.std.specs.Prelude.{List, Bool};

    ghost Value = { List Bool };

    ghost view = { λ r. r.bits };
}

impl<'a> BitReader<'a> {
    ghost use Rattle.std.specs.Prelude.{◌≡◌};

    /// A source with all these bits left.
    pub fn new(bits: BitSlice<'a>) -> BitReader<'a>
        ensures { result ≡ bits.entry }
    {
        BitReader { bits }
    }
}

impl<'a> BitSource<'a> for BitReader<'a> {
    ghost left = { λ r. r };

    fn take(&mut self, width: u32) -> Result<u64, Short> {
        let (left, count) = (self.bits.len(), width as usize);
        if count > left {
            return Err(Short { left: left as u64 });
        }
        let value = self.bits.field(0, width);
        self.bits = self.bits.sub(count, left - count);
        Ok(value)
    }

    fn take_slice(&mut self, len: usize) -> Result<Joined<'a>, Short> {
        let left = self.bits.len();
        if len > left {
            return Err(Short { left: left as u64 });
        }
        let taken = Joined::new(self.bits.sub(0, len), self.bits.sub(0, 0));
        self.bits = self.bits.sub(len, left - len);
        Ok(taken)
    }
}
