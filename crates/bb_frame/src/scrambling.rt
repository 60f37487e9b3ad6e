// The scrambling of a frame.
ghost use Rattle.std.specs.Prelude.{◌≡◌, ◌<◌, ◌≤◌, ℕ, length, slice_index, bit_xor};
ghost use Rattle.terms.specs.Bits.{bits_of};
ghost use Rattle.bb_frame.specs.Scrambled.{scrambled};

use bit_slice::PrbsBlocks;

/// Adds the scrambler's sequence to the bytes of a whole frame, its header included. Doing it again undoes it.
pub fn scramble(bytes: &mut [u8])
    ensures bits { bits_of bytes.new ≡ scrambled (bits_of bytes.old) }
    ensures len { length bytes.new ≡ length bytes.old }
{
    let mut sequence = PrbsBlocks::new();
    let count = bytes.len() / 120;
    for k in 0..count {
        add(&mut bytes[120 * k..120 * k + 120], sequence.bytes());
        sequence.advance();
    }
    add(&mut bytes[120 * count..], sequence.bytes());
}

// Adds bytes of the sequence, as many as there are.
fn add(bytes: &mut [u8], sequence: &[u8; 120])
    requires { length bytes.old ≤ 120 }
    ensures len { length bytes.new ≡ length bytes.old }
    ensures sums { (k : ℕ) → k < length bytes.old → slice_index bytes.new k
        ≡ bit_xor (slice_index bytes.old k) (slice_index sequence.now k) }
{
    for (k, byte) in bytes.iter_mut().enumerate() {
        *byte ^= sequence[k];
    }
}
