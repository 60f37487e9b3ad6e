// The fields of each line.
ghost use Rattle.std.specs.Prelude.{◌≡◌, ◌≤◌, length, IfSome, IfNone, ℕ};
ghost use Rattle.config_text.specs.Fields.{key_at, fields_at, spelling_of, why_of, word_of, SpellsField};
ghost use Rattle.config_text.specs.Words.{Fits, spelling_in};

use crate::decimal::number_within;
use crate::fault::TextWhy;
use crate::spelling::Spelling::{self, Number, Word};
use crate::spelling::{BANDS, place_of};
use itoa::Buffer;

/// What stands at a field.
#[derive(Clone, Copy, Debug, PartialEq, Eq)]
pub enum Field {
    /// The version of the text, 1 or 2.
    Version,
    /// A number of 8 bits.
    Number8,
    /// A number of 16 bits.
    Number16,
    /// A number of 32 bits.
    Number32,
    /// A number of 64 bits.
    Number64,
    /// A bandwidth.
    Bandwidth,
    /// The type of a PLP.
    PlpType,
    /// A code rate.
    CodeRate,
    /// A constellation.
    Constellation,
    /// The size of a block.
    BlockSize,
    /// `0` or `1`.
    Bit,
    /// Whether null packets are deleted or kept.
    Deletion,
}

impl Field {
    // How its values are spelled.
    fn spelling(self) -> Spelling
        ensures { spelling_in result ≡ spelling_of self }
    {
        match self {
            Field::Version => Number(1, 2),
            Field::Number8 => Number(0, 0xFF),
            Field::Number16 => Number(0, 0xFFFF),
            Field::Number32 => Number(0, 0xFFFF_FFFF),
            Field::Number64 => Number(0, 0xFFFF_FFFF_FFFF_FFFF),
            Field::Bandwidth => Word(BANDS),
            Field::PlpType => Word(&[b"common", b"type1", b"type2"]),
            Field::CodeRate => Word(&[b"1/2", b"3/5", b"2/3", b"3/4", b"4/5", b"5/6"]),
            Field::Constellation => Word(&[b"qpsk", b"16qam", b"64qam", b"256qam"]),
            Field::BlockSize => Word(&[b"short", b"normal"]),
            Field::Bit => Word(&[b"0", b"1"]),
            Field::Deletion => Word(&[b"delete", b"keep"]),
        }
    }

    /// The value that a word spells: a number, or the place of the word in its list.
    pub fn value_of(self, word: &[u8]) -> Option<u64>
        ensures some { IfSome result (λ n. SpellsField self n word.now) }
        ensures none { IfNone result ((n : ℕ) → SpellsField self n word.now → ⊥) }
    {
        match self.spelling() {
            Number(least, greatest) => number_within(word, least, greatest),
            Word(words) => place_of(words, word),
        }
    }

    /// The word that spells a value; digits stand in the buffer.
    pub fn word_of<'a>(self, value: u64, buffer: &'a mut Buffer) -> &'a [u8]
        requires { Fits (spelling_of self) value }
        ensures { result.now ≡ word_of (spelling_of self) value }
    {
        match self.spelling() {
            Number(..) => buffer.format(value).as_bytes(),
            Word(words) => words[value as usize],
        }
    }

    /// Why a word is refused that spells no value of the field.
    pub fn why(self) -> TextWhy
        ensures { result ≡ why_of (spelling_of self) }
    {
        match self.spelling() {
            Number(..) => TextWhy::BadNumber,
            Word(_) => TextWhy::BadWord,
        }
    }
}

/// The key of the line that is due behind so many.
pub fn key_at(due: usize) -> &'static [u8]
    ensures { result.now ≡ key_at due }
{
    match due {
        0 => b"t2-gateway",
        1 => b"bandwidth",
        2 => b"frame",
        3 => b"start",
        4 => b"pid",
        5 => b"network",
        6 => b"l1",
        7 => b"subslices",
        _ => b"plp",
    }
}

/// The fields of the line that is due behind so many.
pub fn fields_at(due: usize) -> &'static [Field]
    ensures value { result.now ≡ fields_at due }
    ensures few { length result.now ≤ 12 }
{
    use Field::*;
    match due {
        0 => &[Version],
        1 => &[Bandwidth],
        2 => &[Number32, Number16, Number32],
        3 => &[Number64, Number32, Number16],
        4 | 7 => &[Number16],
        5 => &[Number16, Number16, Number16, Number32],
        6 => &[
            Number8, Number8, Number8, Number8, Number8, Number8, Number8, Number32, Number8,
            Number8, Number16, Number8,
        ],
        _ => &[
            Number8,
            PlpType,
            Number8,
            CodeRate,
            Constellation,
            BlockSize,
            Bit,
            Number16,
            Number16,
            Deletion,
            Number32,
            Number8,
        ],
    }
}
