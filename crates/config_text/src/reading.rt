// The text of a configuration is read.
ghost use Rattle.std.specs.Prelude.{◌≡◌, ◌≤◌, ◌⊎◌, ◌+◌, ◌-◌, ℕ, length, IfOk, IfErr, Ok, Err};
ghost use Rattle.plp_config.specs.declared.config.Config.{Config};
ghost use Rattle.config_text.specs.ConfigText.{Spells, Refuses, CausesFault, first_lines, longest_text, is_skipped};
ghost use Rattle.config_text.specs.Drafts.{Takes, RefusesDue};
ghost use Rattle.config_text.specs.declared.fault.TextFault.{TextFault};
ghost use Rattle.config_text.specs.declared.fault.TextWhy.{TextWhy};

use crate::draft::{empty, put};
use crate::fault::{TextFault, TextWhy};
use crate::line::{FIRST_LINES, read_line};
use crate::lines::Lines;
use plp_config::Config;
use std::alloc::Global;

/// Bytes of a text at most.
pub const LONGEST_TEXT: usize = 65_536;

fn is_skipped(line: &[u8]) -> bool
    ensures { result ≡ is_skipped line.now }
{
    match line {
        [] => true,
        [first, ..] => *first == b'#',
    }
}

// One more line, which is not skipped. The answer is the version of the text, which the first line tells.
#[tactic(auto, using(crate::proofs::FieldLemmas::line_fits))]
fn take_line(
    config: &mut Config,
    version: u64,
    due: usize,
    number: u32,
    line: &[u8],
) -> Result<u64, TextFault>
    requires { length config.old.plps ≡ due - first_lines }
    ensures ok { IfOk result (Takes version due line.now config.old config.new) }
    ensures err { IfErr result (RefusesDue version due line.now number) }
{
    match read_line(version, due, line) {
        Ok(values) => {
            put(config, due, &values)?;
            Ok(if due == 0 { values[0] } else { version })
        }
        Err(why) => Err(TextFault::Refused { line: number, why }),
    }
}

// The same, for a text that is not too long.
fn read_lines(alloc: Global, text: &[u8]) -> Result<Config, TextFault>
    requires { length text.now ≤ longest_text }
    ensures ok { IfOk result (Spells text.now) }
    ensures err { IfErr result (CausesFault text.now) }
{
    let mut config = empty(alloc);
    let mut version = 2;
    let mut due = 0;
    let mut number = 0;
    let mut lines = Lines::of(text);
    while let Some(line) = lines.next() {
        number += 1;
        if !is_skipped(line) {
            version = take_line(&mut config, version, due, number, line)?;
            due += 1;
        }
    }
    if due < FIRST_LINES {
        return Err(TextFault::Refused {
            line: number + 1,
            why: TextWhy::EndsEarly,
        });
    }
    Ok(config)
}

fn read_text(alloc: Global, text: &[u8]) -> Result<Config, TextFault>
    ensures ok { IfOk result (Spells text.now) }
    ensures err { IfErr result (CausesFault text.now) }
{
    if text.len() > LONGEST_TEXT {
        return Err(TextFault::Refused {
            line: 0,
            why: TextWhy::TooLong,
        });
    }
    read_lines(alloc, text)
}

/// The configuration that a text spells, or the first refusal of the text. No rule of the configuration is tried.
pub fn read(alloc: Global, text: &[u8]) -> Result<Config, TextFault>
    ensures ok { IfOk result (Spells text.now) }
    // every text that spells a configuration is read as that one, if there is memory
    ensures every { (c : Config) → Spells text.now c → (result ≡ Ok c) ⊎ (result ≡ Err TextFault.OutOfMemory) }

    ensures err { IfErr result (CausesFault text.now) }
    // every text that is refused is refused so, if there is memory
    ensures refused { (line : ℕ) (why : TextWhy) → Refuses text.now line why
        → (result ≡ Err (TextFault.Refused line why)) ⊎ (result ≡ Err TextFault.OutOfMemory) }
{
    read_text(alloc, text)
}
