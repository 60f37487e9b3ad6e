//! Bits of borrowed bytes, seen as a list.
ghost use Rattle.std.specs.Prelude.{◌≡◌, ◌↔◌, ◌++◌, IsTrue, ◌+◌, ◌*◌, ◌<◌, ◌≤◌, ◌^◌, false, length, take, drop};
ghost use Rattle.std.specs.Prelude.{slice_index_or};
ghost use Rattle.std.specs.Prelude.{List, Bool};
ghost use Rattle.terms.specs.Bits.{bits_of, bytes_of, number_of, number_at, part};

use std::marker::Model;

/// A run of bits of borrowed bytes, the most significant bit of each byte first.
#[derive(Drop)]
pub struct BitSlice<'a> {
    bytes: &'a [u8],
    // The place of the first bit in the bytes.
    first: usize,
    len: usize,
}

impl<'a> Model for BitSlice<'a> {
    ghost Value = { List Bool };

    ghost view = { λ s. take s.len (drop s.first (bits_of s.bytes.now)) };

    ghost invariant = { λ s. (s.first + s.len ≤ 8 * length s.bytes.now) × (length s.bytes.now < 2 ^ 60) };
}

impl<'a> BitSlice<'a> {
    /// All bits of the bytes.
    pub fn whole(bytes: &'a [u8]) -> BitSlice<'a>
        requires { length bytes.now < 2 ^ 60 }
        ensures bits { result ≡ bits_of bytes.now }
        ensures len { length result ≡ 8 * length bytes.now }
    {
        BitSlice {
            bytes,
            first: 0,
            len: 8 * bytes.len(),
        }
    }

    /// The number of bits.
    pub fn len(&self) -> usize
        ensures len { result ≡ length self.now }
        ensures small { result < 2 ^ 63 }
    {
        self.len
    }

    /// Whether there are no bits.
    pub fn is_empty(&self) -> bool
        ensures { IsTrue result ↔ (length self.now ≡ 0) }
    {
        self.len() == 0
    }

    /// The bit at a place.
    pub fn bit(&self, at: usize) -> bool
        requires { at < length self.now }
        ensures { result ≡ slice_index_or self.now at false }
    {
        let place = self.first + at;
        (self.bytes[place / 8] >> (7 - place % 8)) & 1 == 1
    }

    /// The `len` bits from `first` on. Nothing is copied.
    pub fn sub(&self, first: usize, len: usize) -> BitSlice<'a>
        requires { first + len ≤ length self.now }
        ensures bits { result ≡ part self.now first len }
        ensures len { length result ≡ len }
    {
        BitSlice {
            bytes: self.bytes,
            first: self.first + first,
            len,
        }
    }

    /// The number that the `width` bits from `at` on spell.
    pub fn field(&self, at: usize, width: u32) -> u64
        requires narrow { width ≤ 64 }
        requires inside { at + width ≤ length self.now }
        ensures value { result ≡ number_at self.now at width }
        ensures small { result < 2 ^ width }
    {
        let start = self.first + at;
        let end = start + width as usize;
        let end_byte = end.div_ceil(8);
        let number = number_of_bytes(&self.bytes[start / 8..end_byte]);
        (number >> (8 * end_byte - end) & ((1 << width) - 1)) as u64
    }

    /// Copies the bits to `out`, eight to a byte.
    pub fn copy_bytes(&self, out: &mut [u8])
        requires { length self.now ≡ 8 * length out.old }
        ensures bytes { out.new ≡ bytes_of self.now }
        ensures bits { bits_of out.new ≡ self.now }
    {
        if self.first % 8 == 0 {
            let from = self.first / 8;
            out.copy_from_slice(&self.bytes[from..from + out.len()]);
            return;
        }
        for (k, byte) in out.iter_mut().enumerate() {
            *byte = self.field(8 * k, 8) as u8;
        }
    }

    // The whole bytes at the front, and the bits behind them. If the bits begin within a byte, none can be borrowed.
    pub(crate) fn split_bytes(&self) -> (&'a [u8], BitSlice<'a>)
        ensures { bits_of result.0.now ++ result.1 ≡ self.now }
    {
        let len = self.len();
        if self.first % 8 != 0 {
            return (&[], self.sub(0, len));
        }
        let (from, count) = (self.first / 8, len / 8);
        let rest = self.sub(8 * count, len - 8 * count);
        (&self.bytes[from..from + count], rest)
    }
}

// The number that the bits of the bytes spell.
fn number_of_bytes(bytes: &[u8]) -> u128
    requires { length bytes.now ≤ 16 }
    ensures { result ≡ number_of (bits_of bytes.now) }
{
    let mut number: u128 = 0;
    for byte in bytes {
        number = (number << 8) | u128::from(*byte);
    }
    number
}
