// How many frames a run has.
ghost use Rattle.std.specs.Prelude.{◌≡◌, ◌<◌, ◌+◌, ◌^◌, ℕ, max, length, Some, None, IfSome, IfNone, is_some, true};
ghost use Rattle.plp_config.specs.RunLength.{frame_count, last_tick};
ghost use Rattle.plp_config.specs.SlotTime.{start, delay};
ghost use Rattle.gateway_core.specs.InputsStandFor.{AllEnded, HaveEnded};

use crate::input::Input;
use plp_config::Plan;

// The tick by which the delay has passed for all packets of an input, once it ended.
fn end_of(plan: &Plan, input: &Input, plp: usize) -> Option<u128>
    requires { plp < length plan.now.plps }
    ensures tick { IfSome result (λ tick. (total : ℕ) → input.now.total ≡ Some total
        → tick ≡ start plan.now plp total + delay plan.now plp) }
    ensures small { IfSome result (λ tick. tick < 2 ^ 93) }
    ensures some { IfSome result (λ _. is_some input.now.total ≡ true) }
    ensures none { IfNone result (input.now.total ≡ None) }
{
    match input.total() {
        None => None,
        Some(total) => Some(plan.start_of(plp, total) + u128::from(plan.delay(plp))),
    }
}

// The later of two ticks.
fn later(tick: u128, other: u128) -> u128
    ensures { result ≡ max tick other }
{
    if tick < other { other } else { tick }
}

// That of all inputs, once they ended.
fn last_tick(plan: &Plan, inputs: &[Input]) -> Option<u128>
    requires { length inputs.now ≡ length plan.now.plps }
    ensures tick { IfSome result (λ tick. (packets : ℕ → ℕ) → HaveEnded inputs.now packets
        → tick ≡ last_tick plan.now packets (length plan.now.plps)) }
    ensures small { IfSome result (λ tick. tick < 2 ^ 93) }
    ensures some { IfSome result (λ _. AllEnded inputs.now) }
    ensures none { IfNone result (¬ (AllEnded inputs.now)) }
{
    let mut last = 0;
    for plp in 0..inputs.len() {
        match end_of(plan, &inputs[plp], plp) {
            None => return None,
            Some(tick) => last = later(last, tick),
        }
    }
    Some(last)
}

/// How many frames the packets of all inputs need, once they ended.
#[tactic(auto, unfolding(plp_config::specs::RunLength::frame_count))]
pub fn frame_count(plan: &Plan, inputs: &[Input]) -> Option<u128>
    requires { length inputs.now ≡ length plan.now.plps }
    ensures count { IfSome result (λ frames. (packets : ℕ → ℕ) → HaveEnded inputs.now packets
        → frames ≡ frame_count plan.now packets) }
    ensures some { IfSome result (λ _. AllEnded inputs.now) }
    ensures none { IfNone result (¬ (AllEnded inputs.now)) }
{
    let config = plan.config();
    let (frames, ticks) = (u128::from(config.frames), u128::from(config.ticks));
    match last_tick(plan, inputs) {
        None => None,
        Some(tick) => Some(tick.div_ceil(frames * ticks) * frames),
    }
}
