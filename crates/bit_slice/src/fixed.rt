//! A sink of fixed size.
use crate::filling::{filled, put_bits, put_field};
use crate::{BitSink, BitSlice, SinkFault};
use std::marker::Model;

/// A sink with room for N bytes, seen as the bits written.
#[derive(Drop)]
pub struct FixedBits<const N: usize> {
    bytes: [u8; N],
    used: usize,
}

impl<const N: usize> Model for FixedBits<N> {
    ghost use Rattle.std.specs.Prelude.{◌<◌, ◌≤◌, ◌^◌, ◌*◌, List, Bool, take};
    ghost use Rattle.terms.specs.Bits.{bits_of};
    ghost use Rattle.bit_slice.specs.Filling.{Holds};

    ghost Value = { List Bool };

    ghost view = { λ s. take s.used (bits_of s.bytes) };

    ghost invariant = { λ s. (s.used ≤ 8 * N) × (N < 2 ^ 60) × Holds s.bytes (take s.used (bits_of s.bytes)) };
}

impl<const N: usize> FixedBits<N> {
    ghost use Rattle.std.specs.Prelude.{◌≡◌, ◌<◌, ◌≤◌, ◌^◌, ◌+◌, ◌*◌, length, []};
    ghost use Rattle.terms.specs.Bits.{bytes_of};

    /// A sink with nothing written.
    pub fn new() -> FixedBits<N>
        requires { N < 2 ^ 60 }
        ensures { result ≡ [] }
    {
        FixedBits {
            bytes: [0; N],
            used: 0,
        }
    }

    /// Gives all bits up.
    pub fn clear(&mut self)
        ensures { self.new ≡ [] }
    {
        self.used = 0;
    }

    /// The bits written.
    pub fn as_slice(&self) -> BitSlice<'_>
        ensures { result ≡ self.now }
    {
        BitSlice::whole(&self.bytes).sub(0, self.used)
    }

    /// The bytes that the bits written fill, the last one filled up with zero bits.
    pub fn as_bytes(&self) -> &[u8]
        ensures { result.now ≡ bytes_of self.now }
    {
        filled(&self.bytes, self.used)
    }

    // How many bits can still be put.
    fn room(&self) -> usize
        ensures room { result + length self.now ≡ 8 * N }
    {
        let used = self.used;
        8 * N - used
    }
}

impl<const N: usize> BitSink for FixedBits<N> {
    ghost use Rattle.std.specs.Prelude.{◌-◌, ◌*◌, length, [], Some, false};

    ghost state = { λ s. record { written = s; room = Some (8 * N - length s); grows = false; below = [] } };

    fn put(&mut self, value: u64, width: u32) -> Result<(), SinkFault> {
        let room = self.room();
        if width as usize > room {
            return Err(SinkFault::Full {
                need: u64::from(width),
                room: room as u64,
            });
        }
        put_field(&mut self.bytes, self.used, value, width);
        self.used += width as usize;
        Ok(())
    }

    fn put_slice(&mut self, bits: BitSlice<'_>) -> Result<(), SinkFault> {
        let (room, len) = (self.room(), bits.len());
        if len > room {
            return Err(SinkFault::Full {
                need: len as u64,
                room: room as u64,
            });
        }
        put_bits(&mut self.bytes, self.used, &bits);
        self.used += len;
        Ok(())
    }
}
