// The words of the command line.
ghost use Rattle.std.specs.Prelude.{◌≡◌, []};
ghost use Rattle.std.specs.Str.{IsUtf8};

use bit_slice::OutOfMemory;
use site_top::Word;
use std::env::{Env, FillError};
use std::str;

// How many bytes are tried first for a word.
const SHORT: usize = 256;

// A word that is not UTF-8 is the empty word, which is a word of no command.
fn text_of(bytes: &[u8]) -> &str
    ensures text { IsUtf8 bytes.now → result.now ≡ bytes.now }
    ensures other { ¬ (IsUtf8 bytes.now) → result.now ≡ [] }
{
    str::from_utf8(bytes).unwrap_or("")
}

// The word at a place of the command line, or `None` past its end.
fn word_at(rt: &(impl Env + AllocGlobal), place: usize) -> Result<Option<Word>, OutOfMemory> {
    let mut size = SHORT;
    for _ in 0..usize::BITS {
        let mut bytes = vec![in rt.alloc(); 0; size]?;
        match rt.arg(place, &mut bytes) {
            Ok(len) => return Ok(Some(Word::new(rt.alloc(), text_of(&bytes[..len]))?)),
            Err(FillError::NotPresent) => return Ok(None),
            Err(FillError::TooLong) => size = size.saturating_mul(2),
        }
    }
    Err(OutOfMemory)
}

/// The name by which the program was called, without its folder.
pub fn name_of(rt: &(impl Env + AllocGlobal)) -> Result<Word, OutOfMemory> {
    let name = match word_at(rt, 0)? {
        Some(word) => word,
        None => Word::new(rt.alloc(), "")?,
    };
    let short = name.as_str().rsplit('/').next().unwrap_or("");
    Word::new(rt.alloc(), short)
}

/// The words behind the program's name.
pub fn words_of(rt: &(impl Env + AllocGlobal)) -> Result<Vec<Word>, OutOfMemory> {
    let mut words = Vec::new(rt.alloc());
    for place in 1..usize::MAX {
        match word_at(rt, place)? {
            Some(word) => words.push(word)?,
            None => break,
        }
    }
    Ok(words)
}
