// Numbers as they stand in a text.
ghost use Rattle.std.specs.Prelude.{◌≡◌, ◌≢◌, ◌<◌, ◌^◌, ℕ, Some, IfSome, IfNone};
ghost use Rattle.std.specs.Fmt.{decimal};
ghost use Rattle.config_text.specs.Fields.{SpellsValue};
ghost use Rattle.config_text.specs.Fields.Spelling.{Number};

use itoa::Buffer;
use std::str;

// What the digits of a word count, if it is the decimal of a number below 2^64.
fn parsed(word: &[u8]) -> Option<u64>
    ensures { (n : ℕ) → n < 2 ^ 64 → word.now ≡ decimal n → result ≡ Some n }
{
    match str::from_utf8(word) {
        Ok(text) => match text.parse::<u64>() {
            Ok(number) => Some(number),
            Err(_) => None,
        },
        Err(_) => None,
    }
}

// The number that a word spells in decimal, without sign and leading zeros, if it is below 2^64.
fn number(word: &[u8]) -> Option<u64>
    ensures some { IfSome result (λ n. word.now ≡ decimal n) }
    ensures none { IfNone result ((n : ℕ) → n < 2 ^ 64 → word.now ≢ decimal n) }
{
    let number = parsed(word)?;
    if Buffer::new().format(number).as_bytes() == word {
        Some(number)
    } else {
        None
    }
}

/// The number that a word spells in decimal, without sign and leading zeros, if it is from the least to the greatest.
pub fn number_within(word: &[u8], least: u64, greatest: u64) -> Option<u64>
    ensures some { IfSome result (λ n. SpellsValue (Number least greatest) n word.now) }
    ensures none { IfNone result ((n : ℕ) → SpellsValue (Number least greatest) n word.now → ⊥) }
{
    let number = number(word)?;
    if number < least {
        return None;
    }
    if greatest < number {
        None
    } else {
        Some(number)
    }
}
