//! Where bits are read from.
ghost use Rattle.std.specs.Prelude.{◌≡◌, ◌<◌, ◌≤◌, ◌^◌, List, Bool, length, take, OnOk, OnErr, IfOk, IfErr};
ghost use Rattle.terms.specs.Bits.{number_of};
ghost use Rattle.bit_slice.specs.Source.{Takes};

use crate::Joined;
use thiserror::Error;

/// Fewer bits are left than were asked for.
#[derive(Clone, Copy, Debug, PartialEq, Eq, Error)]
#[error("only {left} bits are left")]
pub struct Short {
    /// How many bits are left.
    pub left: u64,
}

/// What bits are taken from the front of. If it has too few, nothing is taken.
pub trait BitSource<'a> {
    /// The bits left.
    ghost left: { Self → List Bool };

    /// Takes a field of `width` bits, and gives the number that they spell.
    fn take(&mut self, width: u32) -> Result<u64, Short>
        requires { width ≤ 64 }
        ensures ok { OnOk result (Takes (left self.old) (left self.new) width) }
        ensures value { IfOk result (λ value. value ≡ number_of (take width (left self.old))) }
        ensures small { IfOk result (λ value. value < 2 ^ width) }
        ensures short { IfErr result (λ e. (e.left ≡ length (left self.old)) × (e.left < width)) }
        ensures err { OnErr result (left self.new ≡ left self.old) };

    /// Takes `len` bits. Nothing is copied.
    fn take_slice(&mut self, len: usize) -> Result<Joined<'a>, Short>
        ensures ok { OnOk result (Takes (left self.old) (left self.new) len) }
        ensures bits { IfOk result (λ bits. bits ≡ take len (left self.old)) }
        ensures len { IfOk result (λ bits. length bits ≡ len) }
        ensures short { IfErr result (λ e. (e.left ≡ length (left self.old)) × (e.left < len)) }
        ensures err { OnErr result (left self.new ≡ left self.old) };
}
