// A trial of a whole network.
ghost use Rattle.std.specs.Prelude.{◌≡◌, ◌*◌, ◌<◌, ◌≤◌, ℕ, List, [], length, map, IfOk, OnOk};
ghost use Rattle.std.specs.List.{range_with_len};
ghost use Rattle.file_run.specs.declared.line.TheConstants.{ROOM};
ghost use Rattle.plp_config.specs.declared.config.Config.{Config};
ghost use Rattle.trial_run.specs.Made.{IsMade};
ghost use Rattle.trial_run.specs.Trial.{IsSameCount, IsNetworkText, IsPlpLine, IsTrialText};
ghost use Rattle.trial_run.specs.TrialInput.{input_of, start_of};

use crate::counts::{cut, same_count};
use crate::draws::Draws;
use crate::input::trial_input;
use crate::lines::{lossy_line, plp_line, stream_line, whole_line};
use crate::losses::kept_units;
use crate::stages::{Modulated, Sent, modulate, receive, send};
use crate::stop::TrialStop;
use bit_slice::OutOfMemory;
use file_run::{Line, Page};
use plp_config::Plan;
use std::alloc::Global;

// What a trial makes: the inputs, the stream, and the records of both modulators.
#[derive(Drop)]
struct Made {
    inputs: Vec<Vec<u8>>,
    sent: Sent,
    whole: Modulated,
    lossy: Modulated,
}

// The inputs of all PLPs, drawn one behind another.
fn draw_inputs(
    alloc: Global,
    plan: &Plan,
    frames: u32,
    draws: &mut Draws,
) -> Result<Vec<Vec<u8>>, OutOfMemory>
    ensures inputs { IfOk result (λ inputs. map (λ input. input.items) inputs.items
        ≡ map (input_of plan.now frames draws.old) (range_with_len 0 (length plan.now.plps))) }
    ensures draws { OnOk result (draws.new ≡ start_of plan.now frames (length plan.now.plps) draws.old) }
{
    let mut inputs = Vec::new(alloc);
    for plp in 0..plan.config().plps.len() {
        inputs.push(trial_input(alloc, plan, plp, frames, draws)?)?;
    }
    Ok(inputs)
}

fn make(alloc: Global, plan: &Plan, frames: u32, seed: u64) -> Result<Made, TrialStop>
    requires plps { length plan.now.plps ≡ 3 }
    ensures { IfOk result (IsMade plan.now frames seed) }
{
    let mut draws = Draws::new(seed);
    let inputs = draw_inputs(alloc, plan, frames, &mut draws)?;
    let sent = send(alloc, plan, &inputs)?;
    let whole = modulate(alloc, plan, &sent.stream)?;
    let kept = kept_units(alloc, &sent.stream, &mut draws)?;
    let lossy = modulate(alloc, plan, &kept)?;
    Ok(Made {
        inputs,
        sent,
        whole,
        lossy,
    })
}

// How many records of frames in a file stand in another one.
fn same_records(alloc: Global, whole: &[u8], lossy: &[u8]) -> Result<u64, TrialStop>
    ensures { IfOk result (IsSameCount whole.now lossy.now) }
{
    let whole = cut(alloc, whole)?;
    let lossy = cut(alloc, lossy)?;
    Ok(same_count(&whole, &lossy))
}

// Puts the lines of the stream and of both modulators onto a page.
fn push_network(page: &mut Page, alloc: Global, made: &Made) -> Result<(), TrialStop>
    requires { page.old ≡ [] }
    ensures text { (c : Config) (frames seed : ℕ) → IsMade c frames seed made.now
        → OnOk result (IsNetworkText c frames seed page.new) }
    ensures len { OnOk result (length page.new ≤ 3 * ROOM) }
{
    let same = same_records(alloc, &made.whole.records, &made.lossy.records)?;
    page.push(stream_line(&made.sent)?.as_bytes());
    page.push(whole_line(&made.whole)?.as_bytes());
    page.push(lossy_line(&made.lossy, same)?.as_bytes());
    Ok(())
}

// The input of the PLP at a place.
fn input_at(inputs: &[Vec<u8>], plp: usize) -> &[u8]
    requires { plp < length inputs.now }
    ensures { (given : ℕ → List ℕ) (n : ℕ) → map (λ input. input.items) inputs.now ≡ map given (range_with_len 0 n)
        → plp < n
        → result.now ≡ given plp }
{
    &inputs[plp]
}

// The line of the PLP at a place.
fn line_of(alloc: Global, plan: &Plan, made: &Made, plp: usize) -> Result<Line, TrialStop>
    requires plp { plp < length plan.now.plps }
    requires inputs { length made.now.inputs.items ≡ length plan.now.plps }
    ensures text { (frames seed : ℕ) → IsMade plan.now frames seed made.now
        → IfOk result (IsPlpLine plan.now frames seed plp) }
    ensures len { IfOk result (λ line. length line ≤ ROOM) }
{
    let whole = receive(alloc, plan, plp, &made.whole.records)?;
    let lossy = receive(alloc, plan, plp, &made.lossy.records)?;
    let line = plp_line(
        plan.plp_id(plp),
        input_at(&made.inputs, plp),
        &whole,
        &lossy,
    )?;
    Ok(line)
}

/// What is said of a trial of a network of three PLPs: inputs for so many frames are drawn from a number, the gateway
/// sends them, one modulator reads all units and one loses some, and each PLP is received from the records of both. It
/// keeps all bytes that it makes.
pub fn trial_text(alloc: Global, plan: &Plan, frames: u32, seed: u64) -> Result<Page, TrialStop>
    requires plps { length plan.now.plps ≡ 3 }
    ensures { IfOk result (IsTrialText plan.now frames seed) }
{
    let mut page = Page::open(alloc)?;
    let made = make(alloc, plan, frames, seed)?;
    push_network(&mut page, alloc, &made)?;
    for plp in 0..plan.config().plps.len() {
        page.push(line_of(alloc, plan, &made, plp)?.as_bytes());
    }
    Ok(page)
}
