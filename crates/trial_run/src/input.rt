// The inputs of a trial.
ghost use Rattle.std.specs.Prelude.{◌≡◌, ◌++◌, ◌<◌, length, IfOk, OnOk};
ghost use Rattle.ts_packet.specs.declared.sizes.TheConstants.{PAYLOAD};
ghost use Rattle.trial_run.specs.Draws.{after};
ghost use Rattle.trial_run.specs.TrialInput.{header, bytes_from, packet_from, draws_for, behind, input_len, input_from};

use crate::draws::Draws;
use bit_slice::OutOfMemory;
use plp_config::Plan;
use std::alloc::Global;
use ts_packet::{PAYLOAD, SYNC, TsPacket};

// One of so many packets is null.
const NULL_ONE_OF: u32 = 4;

// The PID of the packets of the first PLP; that of each later one is one greater.
const FIRST_PID: u32 = 256;

// The values of a byte, of which a draw gives one.
const BYTE_VALUES: u32 = 256;

// The byte behind the PID: a payload alone, and above it the continuity_counter, which counts modulo 16.
const PAYLOAD_ALONE: u8 = 16;

const COUNTER_VALUES: u64 = 16;

// Bytes of a packet in front of its payload.
const HEADER_BYTES: usize = 4;

// The bytes in front of the payload of a packet of the PLP at a place, by its number in the input.
fn header_of(plp: usize, number: u64) -> [u8; HEADER_BYTES]
    requires { plp < 255 }
    ensures { result ≡ header plp number }
{
    let pid = FIRST_PID + plp as u32;
    let counter = (number % COUNTER_VALUES) as u8;
    [
        SYNC,
        (pid / BYTE_VALUES) as u8,
        (pid % BYTE_VALUES) as u8,
        PAYLOAD_ALONE + counter,
    ]
}

// Adds a drawn payload.
#[tactic(auto, unfolding(crate::specs::Draws::after, crate::specs::Draws::draws_from, crate::specs::TrialInput::bytes_from), using(crate::proofs::DrawLemmas::after_more, crate::proofs::DrawLemmas::bytes_more))]
fn push_payload(input: &mut Vec<u8>, draws: &mut Draws) -> Result<(), OutOfMemory>
    ensures bytes { OnOk result (input.new.items ≡ input.old.items ++ bytes_from PAYLOAD draws.old) }
    ensures draws { OnOk result (draws.new ≡ after PAYLOAD draws.old) }
{
    for _ in 0..PAYLOAD {
        input.push((draws.next() % BYTE_VALUES) as u8)?;
    }
    Ok(())
}

// Adds a drawn packet of the PLP at a place.
#[tactic(auto, unfolding(crate::specs::TrialInput::packet_from, crate::specs::TrialInput::draws_for, crate::specs::Draws::after), using(crate::proofs::DrawLemmas::after_first))]
fn push_packet(
    input: &mut Vec<u8>,
    plp: usize,
    number: u64,
    draws: &mut Draws,
) -> Result<(), OutOfMemory>
    requires { plp < 255 }
    ensures bytes { OnOk result (input.new.items ≡ input.old.items ++ packet_from plp number draws.old) }
    ensures draws { OnOk result (draws.new ≡ after (draws_for draws.old) draws.old) }
{
    if draws.next() % NULL_ONE_OF == 0 {
        input.extend_from_slice(TsPacket::canonical().as_array())?;
        return Ok(());
    }
    input.extend_from_slice(&header_of(plp, number))?;
    push_payload(input, draws)
}

/// The input of the PLP at a place for so many frames: a packet for each slot that is over when they are, drawn one
/// after another.
#[tactic(auto, unfolding(crate::specs::TrialInput::behind, crate::specs::TrialInput::packets_from), using(crate::proofs::DrawLemmas::behind_more, crate::proofs::DrawLemmas::packets_more))]
pub fn trial_input(
    alloc: Global,
    plan: &Plan,
    plp: usize,
    frames: u32,
    draws: &mut Draws,
) -> Result<Vec<u8>, OutOfMemory>
    requires { plp < length plan.now.plps }
    ensures bytes { IfOk result (λ input. input.items ≡ input_from plan.now frames plp draws.old) }
    ensures draws { OnOk result (draws.new ≡ behind (input_len plan.now frames plp) draws.old) }
{
    plan.rules_law();
    let packets = plan.slots_by(plp, u64::from(frames) * u64::from(plan.config().ticks));
    let mut input = Vec::new(alloc);
    for number in 0..packets {
        push_packet(&mut input, plp, number, draws)?;
    }
    Ok(input)
}
