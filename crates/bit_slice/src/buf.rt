//! A sink that grows.
ghost use Rattle.std.specs.Prelude.{◌≡◌, ◌+◌, ◌^◌, ◌<◌, List, Bool, true, false, length, vec_len};
ghost use Rattle.terms.specs.Bits.{bytes_for};
ghost use Rattle.bit_slice.specs.Filling.{Holds};

use crate::filling::{put_bits, put_field};
use crate::{BitSink, BitSlice, SinkFault};
use std::alloc::Global;
use std::marker::Model;

// So many bits fill 2^60 - 1 bytes, as many as a slice of bits may have.
const LIMIT: usize = (1 << 63) - 8;

/// A sink that takes memory as it grows, seen as the bits written.
#[derive(Drop)]
pub struct BitBuf {
    bytes: Vec<u8>,
    used: usize,
}

impl Model for BitBuf {
    ghost use Rattle.std.specs.Prelude.{◌≡◌, ◌<◌, ◌^◌, List, Bool, take, vec_len};
    ghost use Rattle.terms.specs.Bits.{bits_of, bytes_for};
    ghost use Rattle.bit_slice.specs.Filling.{Holds};

    ghost Value = { List Bool };

    ghost view = { λ b. take b.used (bits_of b.bytes.items) };

    ghost invariant = { λ b. (vec_len b.bytes ≡ bytes_for b.used) × (vec_len b.bytes < 2 ^ 60)
        × Holds b.bytes.items (take b.used (bits_of b.bytes.items)) };
}

// Makes room for more bits behind those used. `false` if no memory was found.
fn lengthen(bytes: &mut Vec<u8>, used: usize, more: usize) -> bool
    requires len { vec_len bytes.old ≡ bytes_for used }
    requires short { vec_len bytes.old < 2 ^ 60 }
    ensures len { result ≡ true → vec_len bytes.new ≡ bytes_for (used + more) }
    ensures short { result ≡ true → vec_len bytes.new < 2 ^ 60 }
    ensures holds { result ≡ true → (bits : List Bool) → length bits ≡ used → Holds bytes.old.items bits
        → Holds bytes.new.items bits }
    ensures kept { result ≡ false → bytes.new.items ≡ bytes.old.items }
{
    if more > LIMIT - used {
        return false;
    }
    bytes.resize((used + more).div_ceil(8), 0).is_ok()
}

impl BitBuf {
    ghost use Rattle.std.specs.Prelude.{◌≡◌, []};
    ghost use Rattle.terms.specs.Bits.{bytes_of};

    /// A sink with nothing written.
    pub fn new(alloc: Global) -> BitBuf
        ensures { result ≡ [] }
    {
        BitBuf {
            bytes: Vec::new(alloc),
            used: 0,
        }
    }

    /// The bits written.
    pub fn as_slice(&self) -> BitSlice<'_>
        ensures { result ≡ self.now }
    {
        BitSlice::whole(&self.bytes).sub(0, self.used)
    }

    /// The bytes that the bits fill, a last part of a byte filled with zero bits.
    pub fn into_bytes(self) -> Vec<u8>
        ensures { result.items ≡ bytes_of self }
    {
        self.bytes
    }
}

impl BitSink for BitBuf {
    ghost use Rattle.std.specs.Prelude.{[], None, true};

    ghost state = { λ b. record { written = b; room = None; grows = true; below = [] } };

    fn put(&mut self, value: u64, width: u32) -> Result<(), SinkFault> {
        let used = self.used;
        if !lengthen(&mut self.bytes, used, width as usize) {
            return Err(SinkFault::OutOfMemory);
        }
        put_field(&mut self.bytes, used, value, width);
        self.used = used + width as usize;
        Ok(())
    }

    fn put_slice(&mut self, bits: BitSlice<'_>) -> Result<(), SinkFault> {
        let (used, len) = (self.used, bits.len());
        if !lengthen(&mut self.bytes, used, len) {
            return Err(SinkFault::OutOfMemory);
        }
        put_bits(&mut self.bytes, used, &bits);
        self.used = used + len;
        Ok(())
    }
}
