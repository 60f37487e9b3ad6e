//! The sequence that scrambles baseband frames, many bytes at a time.
ghost use Rattle.std.specs.Prelude.{◌+◌, ℕ};
ghost use Rattle.bit_slice.specs.PrbsBlocks.{Runs};

use crate::Prbs;

/// The scrambler's sequence, 120 bytes at a time (EN 302 755, clause 5.2.4).
#[derive(Clone, Copy, Debug)]
pub struct PrbsBlocks {
    bytes: [u8; 120],
}

impl PrbsBlocks {
    ghost use Rattle.std.specs.Prelude.{◌+◌, ℕ};
    ghost use Rattle.bit_slice.specs.PrbsBlocks.{PrbsBlocksStandsFor, Runs};

    /// The sequence from its first byte on.
    pub fn new() -> PrbsBlocks
        ensures { PrbsBlocksStandsFor result 0 }
    {
        let mut sequence = Prbs::new();
        let mut bytes = [0; 120];
        for byte in bytes.iter_mut() {
            *byte = sequence.next_byte();
        }
        PrbsBlocks { bytes }
    }

    /// The next 120 bytes, as far as the sequence was passed.
    pub fn bytes(&self) -> &[u8; 120]
        ensures { (passed : ℕ) → PrbsBlocksStandsFor self.now passed → Runs result.now passed }
    {
        &self.bytes
    }

    /// Passes 120 bytes.
    pub fn advance(&mut self)
        ensures { (passed : ℕ) → PrbsBlocksStandsFor self.old passed → PrbsBlocksStandsFor self.new (passed + 120) }
    {
        next_block(&mut self.bytes);
    }
}

// A byte is the sum of those 120 and 112 before it: the recurrence doubled six times is x(i + 960) = x(i + 64) + x(i).
fn next_block(bytes: &mut [u8; 120])
    ensures { (from : ℕ) → Runs bytes.old from → Runs bytes.new (from + 120) }
{
    for k in 0..112 {
        bytes[k] ^= bytes[k + 8];
    }
    for k in 112..120 {
        bytes[k] ^= bytes[k - 112];
    }
}
