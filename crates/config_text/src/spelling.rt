// How values are spelled.
ghost use Rattle.std.specs.Prelude.{◌≡◌, map};
ghost use Rattle.config_text.specs.Fields.{place_from};

/// The bandwidths in MHz, in the order of bw.
pub const BANDS: &[&[u8]] = &[b"1.7", b"5", b"6", b"7", b"8", b"10"];

/// How a value is spelled.
#[derive(Clone, Copy)]
pub enum Spelling {
    /// A number from the least to the greatest.
    Number(u64, u64),
    /// One of some words, whose place it is.
    Word(&'static [&'static [u8]]),
}

/// The place of a word among some words.
#[tactic(auto, using(crate::proofs::FieldLemmas::place_next))]
pub fn place_of(words: &[&[u8]], word: &[u8]) -> Option<u64>
    ensures { result ≡ place_from 0 word.now (map (λ w. w.now) words.now) }
{
    for (place, other) in words.iter().enumerate() {
        if word == *other {
            return Some(place as u64);
        }
    }
    None
}
