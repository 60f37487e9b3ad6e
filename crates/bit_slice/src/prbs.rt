//! The sequence that scrambles baseband frames.

/// The scrambler's sequence, a byte at a time (EN 302 755, clause 5.2.4).
#[derive(Clone, Copy, Debug)]
pub struct Prbs {
    // The last fifteen bits, the latest one lowest.
    register: u16,
}

impl Prbs {
    ghost use Rattle.std.specs.Prelude.{◌≡◌, ◌+◌, ℕ};
    ghost use Rattle.bit_slice.specs.Prbs.{PrbsStandsFor, prbs_byte};

    /// The sequence from its first byte on, 0x03.
    pub fn new() -> Prbs
        ensures { PrbsStandsFor result 0 }
    {
        Prbs { register: 0xA9 }
    }

    /// The next eight bits, the first one highest.
    pub fn next_byte(&mut self) -> u8
        ensures byte { (given : ℕ) → PrbsStandsFor self.old given → result ≡ prbs_byte given }
        ensures stands { (given : ℕ) → PrbsStandsFor self.old given → PrbsStandsFor self.new (given + 1) }
    {
        // The newest bit that a sum asks for is the fourteenth before it, so eight sums need none of each other.
        let byte = (self.register >> 6 ^ self.register >> 7) & 0xFF;
        self.register = (self.register << 8 | byte) & 0x7FFF;
        byte as u8
    }
}
