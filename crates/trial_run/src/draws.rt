// Numbers that are drawn one after another.
ghost use Rattle.std.specs.Prelude.{◌≡◌};
ghost use Rattle.trial_run.specs.Draws.{after_one, drawn};

use std::marker::Model;

// The factor and the summand of the generator (Knuth's MMIX).
const MULTIPLIER: u64 = 6_364_136_223_846_793_005;

const INCREMENT: u64 = 1_442_695_040_888_963_407;

// How many of the lowest bits a draw leaves out.
const HIDDEN_BITS: u32 = 33;

/// Draws from a number below 2^64, which each draw changes.
#[derive(Clone, Copy, Debug, PartialEq, Eq)]
pub struct Draws {
    number: u64,
}

impl Model for Draws {
    ghost use Rattle.std.specs.Prelude.{ℕ};

    ghost Value = { ℕ };

    ghost view = { λ d. d.number };

    ghost inverse = { λ number. record { number = number } };
}

impl Draws {
    /// Draws from a seed.
    pub fn new(seed: u64) -> Draws
        ensures { result ≡ seed }
    {
        Draws { number: seed }
    }

    /// The next draw.
    #[tactic(auto, unfolding(crate::specs::Draws::after_one, crate::specs::Draws::drawn), using(crate::proofs::DrawLemmas::wrapped))]
    pub fn next(&mut self) -> u32
        ensures number { self.new ≡ after_one self.old }
        ensures drawn { result ≡ drawn self.old }
    {
        self.number = self.number.wrapping_mul(MULTIPLIER).wrapping_add(INCREMENT);
        (self.number >> HIDDEN_BITS) as u32
    }
}
