//! Two runs of bits, one behind the other.
ghost use Rattle.std.specs.Prelude.{◌≡◌, ◌↔◌, ◌++◌, IsTrue, ◌+◌, ◌<◌, ◌≤◌, ◌^◌, length, List, Bool, OnOk, IfErr};
ghost use Rattle.terms.specs.Bits.{number_at, part};
ghost use Rattle.bit_slice.specs.Sink.{Puts, Stops};

use crate::{BitSink, BitSlice, SinkFault, puts_law, stops_law};
use std::marker::Model;

/// Two runs of bits, seen as the bits of the one and then those of the other.
#[derive(Drop)]
pub struct Joined<'a> {
    front: BitSlice<'a>,
    back: BitSlice<'a>,
}

impl<'a> Model for Joined<'a> {
    ghost Value = { List Bool };

    ghost view = { λ j. j.front ++ j.back };
}

impl<'a> Joined<'a> {
    /// The bits of `front` and then those of `back`.
    pub fn new(front: BitSlice<'a>, back: BitSlice<'a>) -> Joined<'a>
        ensures bits { result ≡ front.entry ++ back.entry }
        ensures len { length result ≡ length front.entry + length back.entry }
    {
        Joined { front, back }
    }

    /// The number of bits.
    pub fn len(&self) -> usize
        ensures { result ≡ length self.now }
    {
        self.front.len() + self.back.len()
    }

    /// Whether there are no bits.
    pub fn is_empty(&self) -> bool
        ensures { IsTrue result ↔ (length self.now ≡ 0) }
    {
        self.len() == 0
    }

    /// The `len` bits from `first` on. Nothing is copied.
    pub fn sub(&self, first: usize, len: usize) -> Joined<'a>
        requires { first + len ≤ length self.now }
        ensures bits { result ≡ part self.now first len }
        ensures len { length result ≡ len }
    {
        let seam = self.front.len();
        let from = first.min(seam);
        let taken = len.min(seam - from);
        Joined {
            front: self.front.sub(from, taken),
            back: self.back.sub(first - from, len - taken),
        }
    }

    /// The number that the `width` bits from `at` on spell.
    pub fn field(&self, at: usize, width: u32) -> u64
        requires narrow { width ≤ 64 }
        requires inside { at + width ≤ length self.now }
        ensures value { result ≡ number_at self.now at width }
        ensures small { result < 2 ^ width }
    {
        let seam = self.front.len();
        if at >= seam {
            return self.back.field(at - seam, width);
        }
        if width as usize <= seam - at {
            return self.front.field(at, width);
        }
        let before = (seam - at) as u32;
        let behind = width - before;
        self.front.field(at, before) << behind | self.back.field(0, behind)
    }
}

/// Puts the bits of both runs. After a fault those of the first one may stand in the sink.
pub fn put_joined<S: BitSink>(sink: &mut S, bits: Joined<'_>) -> Result<(), SinkFault>
    ensures ok { OnOk result (Puts (S.state sink.old) (S.state sink.new) bits.entry) }
    ensures fault { IfErr result (Stops (S.state sink.old) (S.state sink.new) bits.entry) }
{
    puts_law();
    stops_law();
    sink.put_slice(bits.front)?;
    sink.put_slice(bits.back)
}
