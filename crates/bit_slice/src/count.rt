//! A sink that only counts.
use crate::written::{Written, and_field, and_slice, none};
use crate::{BitSink, BitSlice, SinkFault};
use std::marker::Model;

/// A sink that counts the bits put and keeps none of them, with room for 2^64 - 1, seen as the bits put.
#[derive(Drop)]
pub struct BitCount {
    bits: u64,
    put: Written,
}

impl Model for BitCount {
    ghost use Rattle.std.specs.Prelude.{◌≡◌, List, Bool, length};

    ghost Value = { List Bool };

    ghost view = { λ c. c.put.bits };

    ghost invariant = { λ c. c.bits ≡ length c.put.bits };
}

impl BitCount {
    ghost use Rattle.std.specs.Prelude.{◌≡◌, length, []};

    /// A sink to which nothing was put.
    pub fn new() -> BitCount
        ensures { result ≡ [] }
    {
        BitCount {
            bits: 0,
            put: none(),
        }
    }

    /// How many bits were put.
    pub fn bits(&self) -> u64
        ensures { result ≡ length self.now }
    {
        self.bits
    }
}

impl BitSink for BitCount {
    ghost use Rattle.std.specs.Prelude.{◌-◌, ◌^◌, length, [], Some, false};

    ghost state = { λ c. record { written = c; room = Some (2 ^ 64 - 1 - length c); grows = false; below = [] } };

    fn put(&mut self, value: u64, width: u32) -> Result<(), SinkFault> {
        let (room, need) = (u64::MAX - self.bits, u64::from(width));
        if need > room {
            return Err(SinkFault::Full { need, room });
        }
        self.bits += need;
        self.put = and_field(&self.put, value, width);
        Ok(())
    }

    fn put_slice(&mut self, bits: BitSlice<'_>) -> Result<(), SinkFault> {
        let (room, need) = (u64::MAX - self.bits, bits.len() as u64);
        if need > room {
            return Err(SinkFault::Full { need, room });
        }
        self.bits += need;
        self.put = and_slice(&self.put, &bits);
        Ok(())
    }
}
