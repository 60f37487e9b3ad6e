//! Whether two runs of bits are the same.
ghost use Rattle.std.specs.Prelude.{◌≡◌, ◌↔◌, ◌*◌, ◌/◌, IsTrue, length, take};

use crate::BitSlice;

/// Whether two runs have the same bits.
pub fn same_bits(a: &BitSlice<'_>, b: &BitSlice<'_>) -> bool
    ensures { IsTrue result ↔ (a.now ≡ b.now) }
{
    let len = a.len();
    if b.len() != len {
        return false;
    }
    if !same_words(a, b) {
        return false;
    }
    let (words, rest) = (64 * (len / 64), (len % 64) as u32);
    a.field(words, rest) == b.field(words, rest)
}

// Whether the whole words of 64 bits at the front are the same.
fn same_words(a: &BitSlice<'_>, b: &BitSlice<'_>) -> bool
    requires { length a.now ≡ length b.now }
    ensures { IsTrue result ↔ (take (64 * (length a.now / 64)) a.now ≡ take (64 * (length a.now / 64)) b.now) }
{
    for k in 0..a.len() / 64 {
        if a.field(64 * k, 64) != b.field(64 * k, 64) {
            return false;
        }
    }
    true
}
