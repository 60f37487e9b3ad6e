//! Bits that only proofs read: they take no memory and no time.
ghost use Rattle.std.specs.Prelude.{◌≡◌, ◌++◌, [], List, Bool};
ghost use Rattle.std.specs.Borrow.{ftrue};
ghost use Rattle.terms.specs.Bits.{field};

use crate::{BitSink, BitSlice};
use std::marker::Model;

/// What was written to a sink that does not keep it, as its clauses read it in `bits`.
#[derive(Drop)]
pub struct Written {
    pub ghost bits: { List Bool },
}

impl Model for Written {
    ghost also_owns = { λ _. ftrue };
}

// The bits that the caller's proof picks of a value.
fn these<T>(of: &T) -> Written
    ghost bits: { T → List Bool }
    ensures { result.bits ≡ bits of.now }
{
    let _ = of;
    Written {}
}

/// No bits.
pub fn none() -> Written
    ensures { result.bits ≡ [] }
{
    these(&())
}

/// The bits written to a sink.
pub fn written_to<S: BitSink>(sink: &S) -> Written
    ensures { result.bits ≡ (S.state sink.now).written }
{
    these(sink)
}

/// Bits, and a field behind them.
pub fn and_field(bits: &Written, value: u64, width: u32) -> Written
    ensures { result.bits ≡ bits.now.bits ++ field width value }
{
    these(&(bits, value, width))
}

/// Bits, and those of a slice behind them.
pub fn and_slice(bits: &Written, more: &BitSlice<'_>) -> Written
    ensures { result.bits ≡ bits.now.bits ++ more.now }
{
    let more = these(more);
    these(&(bits, &more))
}
