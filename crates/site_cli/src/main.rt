//! The program: the words of the command line, over real files and standard output.
#![tactic(auto)]

ghost use Rattle.std.specs.Prelude.{◌≡◌};
ghost use Rattle.std.specs.Process.{exit_status};
ghost use Rattle.site_top.specs.Outcomes.{status_of};

#[cfg(test)]
mod tests;
mod words;

use site_console::{advise, carry_out};
use site_top::Outcome;
use std::io::IsTerminal;
use std::process::ExitCode;
use words::{name_of, words_of};

// The status of the program.
fn exit_code(outcome: Outcome) -> ExitCode
    ensures { exit_status result ≡ status_of outcome }
{
    ExitCode::from(outcome.status())
}

fn main(rt: HostRuntime) -> ExitCode {
    let (Ok(program), Ok(words)) = (name_of(&rt), words_of(&rt)) else {
        advise(&rt, "", &[], Outcome::OutOfMemory, None, false);
        return exit_code(Outcome::OutOfMemory);
    };
    let wanted = rt.stderr().is_terminal();
    exit_code(carry_out(&rt, program.as_str(), words.as_slice(), wanted))
}
