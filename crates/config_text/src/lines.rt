// The lines of a text, one after another.
ghost use Rattle.std.specs.Prelude.{◌≡◌, ◌∷◌, [], IfSome, IfNone};
ghost use Rattle.std.specs.Str.Lines.{strip_carriage_return};

use crate::parts::split_once;
use std::marker::Model;

/// The lines of a text that are left, seen as a list. A line ends with LF, and the last one may lack it.
#[derive(Drop)]
pub struct Lines<'a> {
    rest: &'a [u8],
}

impl<'a> Model for Lines<'a> {
    ghost use Rattle.std.specs.Prelude.{List, ℕ};
    ghost use Rattle.std.specs.Str.Lines.{lines};

    ghost Value = { List (List ℕ) };

    ghost view = { λ l. lines l.rest.now };
}

// A line without the CR at its end.
fn without_carriage_return(line: &[u8]) -> &[u8]
    ensures { result.now ≡ strip_carriage_return line.now }
{
    match line {
        [front @ .., b'\r'] => front,
        _ => line,
    }
}

impl<'a> Lines<'a> {
    ghost use Rattle.std.specs.Str.Lines.{lines};

    /// All lines of a text.
    pub fn of(text: &'a [u8]) -> Lines<'a>
        ensures { result ≡ lines text.now }
    {
        Lines { rest: text }
    }

    /// The next line, without its LF and a CR before that.
    #[tactic(auto, using(crate::proofs::PartLemmas::lines_first, crate::proofs::PartLemmas::lines_last))]
    pub fn next(&mut self) -> Option<&'a [u8]>
        ensures some { IfSome result (λ line. self.old ≡ line.now ∷ self.new) }
        ensures none { IfNone result (self.old ≡ []) }
    {
        let (line, rest) = split_once(self.rest, b'\n');
        match rest {
            Some(rest) => {
                self.rest = rest;
                Some(without_carriage_return(line))
            }
            None => {
                self.rest = &[];
                if line.is_empty() { None } else { Some(line) }
            }
        }
    }
}
