// A line against the one that is due.
ghost use Rattle.std.specs.Prelude.{◌≡◌, ◌↔◌, All, IfOk, IfErr, IsTrue};
ghost use Rattle.std.specs.Option.{option_copied};
ghost use Rattle.config_text.specs.ConfigText.{IsPrintable, left_out, ReadsLine, RefusesLine};
ghost use Rattle.config_text.specs.Words.{last_in, row_of};

use crate::fault::TextWhy;
use crate::field::{fields_at, key_at};
use crate::values::{MOST_FIELDS, values_of};
use crate::words::Words;

/// The lines that stand first, each once.
pub const FIRST_LINES: usize = 8;

// They, and 255 PLPs.
const MOST_LINES: usize = FIRST_LINES + 255;

fn is_printable(line: &[u8]) -> bool
    ensures { IsTrue result ↔ All IsPrintable line.now }
{
    line.iter().all(|b| (32..=126).contains(b))
}

// The word that version 1 leaves out at the end of a line.
fn left_out(version: u64, due: usize) -> Option<&'static [u8]>
    ensures { last_in (option_copied result) ≡ left_out version due }
{
    if version == 1 && due >= FIRST_LINES {
        Some(b"1")
    } else {
        None
    }
}

/// The values of a line, if it is the one that is due behind so many in a version of the text.
pub fn read_line(version: u64, due: usize, line: &[u8]) -> Result<[u64; MOST_FIELDS], TextWhy>
    ensures ok { IfOk result (λ values. ReadsLine version due line.now (row_of due values)) }
    ensures err { IfErr result (RefusesLine version due line.now) }
{
    if !is_printable(line) {
        return Err(TextWhy::NotAscii);
    }
    let mut words = Words::of(line, left_out(version, due));
    let count = words.len();
    if words.first() != key_at(due) {
        return Err(TextWhy::WrongKey);
    }
    let fields = fields_at(due);
    if count != fields.len() + 1 || due >= MOST_LINES {
        return Err(TextWhy::WrongCount);
    }
    values_of(fields, words)
}
