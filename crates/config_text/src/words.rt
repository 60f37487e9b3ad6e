// The words of a line, one after another.
ghost use Rattle.std.specs.Prelude.{◌≡◌, ◌∷◌, ◌++◌, [], IfSome, IfNone, length, drop, slice_index_or};
ghost use Rattle.std.specs.Option.{option_copied};
ghost use Rattle.config_text.specs.ConfigText.{words_of};
ghost use Rattle.config_text.specs.Words.{last_in};

use crate::parts::{count_of, split_once};
use std::marker::Model;

/// The words of a line that are left, parted by single spaces, seen as a list.
#[derive(Drop)]
pub struct Words<'a> {
    rest: Option<&'a [u8]>,
    // A word behind them.
    last: Option<&'a [u8]>,
}

impl<'a> Model for Words<'a> {
    ghost use Rattle.std.specs.Prelude.{List, ℕ, ◌++◌};
    ghost use Rattle.config_text.specs.Words.{words_in, last_in};

    ghost Value = { List (List ℕ) };

    ghost use Rattle.std.specs.Option.{option_copied};

    ghost view = { λ w. words_in (option_copied w.rest) ++ last_in (option_copied w.last) };
}

impl<'a> Words<'a> {
    /// All words of a line, and perhaps one behind them.
    pub fn of(line: &'a [u8], last: Option<&'a [u8]>) -> Words<'a>
        ensures { result ≡ words_of line.now ++ last_in (option_copied last.entry) }
    {
        Words {
            rest: Some(line),
            last,
        }
    }

    /// The number of words.
    pub fn len(&self) -> usize
        ensures { result ≡ length self.now }
    {
        let last = usize::from(self.last.is_some());
        match self.rest {
            Some(rest) => count_of(rest, b' ') + 1 + last,
            None => last,
        }
    }

    /// The next word.
    pub fn next(&mut self) -> Option<&'a [u8]>
        ensures some { IfSome result (λ word. self.old ≡ word.now ∷ self.new) }
        ensures none { IfNone result (self.old ≡ []) }
        ensures end { IfNone result (self.new ≡ []) }
    {
        match self.rest {
            Some(words) => {
                let (word, rest) = split_once(words, b' ');
                self.rest = rest;
                Some(word)
            }
            None => {
                let last = self.last?;
                self.last = None;
                Some(last)
            }
        }
    }

    /// The first of the words, and no byte if there is none.
    pub fn first(&mut self) -> &'a [u8]
        ensures word { result.now ≡ slice_index_or self.old 0 [] }
        ensures rest { self.new ≡ drop 1 self.old }
    {
        self.next().unwrap_or(b"")
    }
}
