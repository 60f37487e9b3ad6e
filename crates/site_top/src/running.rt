// Carrying out the command that words name, up to the last line of a run that is not done.
ghost use Rattle.std.specs.Prelude.{◌≡◌, IfSome, IfNone, length};
ghost use Rattle.ports.specs.Desk.{State};
ghost use Rattle.site_top.specs.Commands.{command_of};
ghost use Rattle.site_top.specs.Endings.{Ends};
ghost use Rattle.site_top.specs.Runs.{Does, IsComplete};
ghost use Rattle.site_top.specs.Touches.{Touches, out_of, ins_of};

use crate::command_line::request_of;
use crate::common_receive::common_receive;
use crate::compare::compare;
use crate::config_commands::{plan, show_config};
use crate::gateway::{common_gateway, gateway};
use crate::last_lines::last_line;
use crate::laws::{completeness_law, only_out_changes_law};
use crate::mend::mend;
use crate::merge::merge;
use crate::modulate::modulate;
use crate::outcome::Outcome;
use crate::receive::receive;
use crate::request::Request;
use crate::run_end::outcome_of;
use crate::swap::swap;
use crate::trial::trial;
use ports::{Desk, Word};
use show_run::{show_frames, show_packets, show_t2mi};
use std::alloc::Global;

// Does what the words say, but for the last line.
fn command<D: Desk>(alloc: Global, words: &[Word], desk: &mut D) -> Outcome
    ensures does { IfSome (command_of words.now) (λ command. Does command (D.state desk.old) (D.state desk.new)
        result) }
    ensures refuses { IfNone (command_of words.now) ((result ≡ Outcome.Usage) × (D.state desk.new ≡ D.state desk.old)) }
{
    let Some(request) = request_of(words) else {
        return Outcome::Usage;
    };
    match request {
        Request::ShowPackets { file } => outcome_of(show_packets(alloc, file, desk)),
        Request::ShowT2mi { file } => outcome_of(show_t2mi(alloc, file, desk)),
        Request::ShowFrames { file } => outcome_of(show_frames(alloc, file, desk)),
        Request::ShowConfig { file } => show_config(alloc, file, desk),
        Request::Plan { config } => plan(alloc, config, desk),
        Request::Gateway { config, out, ins } => gateway(alloc, config, out, ins, desk),
        Request::CommonGateway { config, out, ins } => {
            common_gateway(alloc, config, out, ins, desk)
        }
        Request::Modulate { config, input, out } => modulate(alloc, config, input, out, desk),
        Request::Receive {
            config,
            plp_id,
            input,
            out,
        } => receive(alloc, config, plp_id, input, out, desk),
        Request::CommonReceive {
            config,
            plp_id,
            input,
            out,
        } => common_receive(alloc, config, plp_id, input, out, desk),
        Request::Merge { config, a, b, out } => merge(alloc, config, a, b, out, desk),
        Request::Mend { config, out, ins } => mend(alloc, config, out, ins, desk),
        Request::Swap {
            config,
            plp_id,
            t2mi,
            input,
            out,
        } => swap(alloc, config, plp_id, t2mi, input, out, desk),
        Request::Compare { config, a, b } => compare(alloc, config, a, b, desk),
        Request::Trial { seed, frames } => trial(alloc, seed, frames, desk),
    }
}

// Says the last line of a run that is not done.
fn finish<D: Desk>(desk: &mut D, outcome: Outcome)
    ensures { Ends (D.state desk.old) (D.state desk.new) outcome }
{
    if outcome != Outcome::Done {
        desk.say_last(last_line(outcome).as_bytes());
    }
}

/// Runs the command that the words name, over a desk.
pub fn run<D: Desk>(alloc: Global, words: &[Word], desk: &mut D) -> Outcome
    // If the words are no command, the last line is all that is done.
    ensures usage { IfNone (command_of words.now) (result ≡ Outcome.Usage) }
    ensures refuses { IfNone (command_of words.now) (Ends (D.state desk.old) (D.state desk.new) Outcome.Usage) }

    // Else the command is done, and a run that is not done says its last line. Usage has its cause here.
    ensures does { IfSome (command_of words.now) (λ command.
        (before : State) × Does command (D.state desk.old) before result × Ends before (D.state desk.new) result) }

    // However it ends, it changes no file but the one that it writes, creates that once at most, and opens no more
    // files than it reads.
    ensures touches { IfSome (command_of words.now)
        (λ command. Touches (out_of command) (length (ins_of command)) (D.state desk.old) (D.state desk.new)) }

    ensures complete { IfSome (command_of words.now)
        (λ command. IsComplete command (D.state desk.old) (D.state desk.new) result) }
{
    completeness_law();
    only_out_changes_law();
    let outcome = command(alloc, words, desk);
    finish(desk, outcome);
    outcome
}
