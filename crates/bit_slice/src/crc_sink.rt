//! A sink that counts the CRC-32 of what goes through it.
ghost use Rattle.std.specs.Prelude.{◌≡◌, IfOk, IfErr};
ghost use Rattle.terms.specs.Bits.{field};
ghost use Rattle.bit_slice.specs.Crc.{crc32_of};
ghost use Rattle.bit_slice.specs.Sink.{Puts, Refuses, wrapped, unwrapped};

use crate::crc_32::{after_field, after_slice};
use crate::written::{Written, and_field, and_slice, none, written_to};
use crate::{BitSink, BitSlice, SinkFault};
use std::marker::Model;

/// A sink around another one, to which it puts all that it is given. It is seen as the bits put through it, with room
/// and growth of the inner sink.
#[derive(Drop)]
pub struct CrcSink<S: BitSink> {
    inner: S,
    register: u32,
    // What the inner sink had before, and what was put through this one.
    stood: Written,
    put: Written,
}

impl<S: BitSink> Model for CrcSink<S> {
    ghost use Rattle.std.specs.Prelude.{◌≡◌, ◌∷◌, ◌++◌};
    ghost use Rattle.bit_slice.specs.Register.{register as register_of};
    ghost use Rattle.bit_slice.specs.Sink.{State};

    ghost Value = { State };

    ghost view = { λ c. record {
      written = c.put.bits;
      room = (S.state c.inner).room;
      grows = (S.state c.inner).grows;
      below = c.stood.bits ∷ (S.state c.inner).below;
    } };

    ghost invariant = { λ c. ((S.state c.inner).written ≡ c.stood.bits ++ c.put.bits)
        × (c.register ≡ register_of 32 0x04C1_1DB7 0xFFFF_FFFF c.put.bits) };
}

impl<S: BitSink> CrcSink<S> {
    /// A sink around this one, with nothing put through it.
    pub fn new(inner: S) -> CrcSink<S>
        ensures { result ≡ wrapped (S.state inner) }
    {
        CrcSink {
            stood: written_to(&inner),
            inner,
            register: u32::MAX,
            put: none(),
        }
    }

    /// The CRC-32 of all that was put through the sink.
    pub fn crc(&self) -> u32
        ensures { result ≡ crc32_of self.now.written }
    {
        self.register
    }

    /// Puts the CRC-32 of all that was put through, its 32 bits, and gives the inner sink back: unchanged after a
    /// fault.
    pub fn finish(self) -> Result<S, (S, SinkFault)>
        ensures ok { IfOk result (λ inner. Puts (unwrapped self) (S.state inner) (field 32 (crc32_of self.written))) }
        ensures err { IfErr result (λ e. S.state e.0 ≡ unwrapped self) }
        ensures fault { IfErr result (λ e. Refuses (unwrapped self) 32 e.1) }
    {
        let crc = self.crc();
        let mut inner = self.inner;
        match inner.put(u64::from(crc), 32) {
            Ok(()) => Ok(inner),
            Err(fault) => Err((inner, fault)),
        }
    }
}

impl<S: BitSink> BitSink for CrcSink<S> {
    ghost state = { λ c. c };

    fn put(&mut self, value: u64, width: u32) -> Result<(), SinkFault> {
        self.inner.put(value, width)?;
        self.register = after_field(self.register, value, width);
        self.put = and_field(&self.put, value, width);
        Ok(())
    }

    fn put_slice(&mut self, bits: BitSlice<'_>) -> Result<(), SinkFault> {
        let register = after_slice(self.register, &bits);
        let put = and_slice(&self.put, &bits);
        self.inner.put_slice(bits)?;
        self.register = register;
        self.put = put;
        Ok(())
    }
}
