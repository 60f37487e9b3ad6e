// The slot rule of a PLP.
ghost use Rattle.std.specs.Prelude.{◌≡◌, ◌<◌, length, IfOk};
ghost use Rattle.plp_config.specs.SlotTime.{window, window_slots};
ghost use Rattle.plp_config.specs.SlotTimes.{delay_of};
ghost use Rattle.plp_receiver.specs.Sound.{IsSound};
ghost use Rattle.plp_receiver.specs.SlotsStandFor.{IsFresh, rule_of, slots_status};
ghost use Rattle.plp_receiver.specs.SlotsStandFor as slots;
ghost use Rattle.plp_receiver.specs.Epochs.{slot_rule};

use crate::slot_rule::SlotRule;
use crate::slots::PacketSlots;
use plp_config::{Plan, length_law};
use std::alloc::{AllocError, Global};

// The slot rule of a PLP.
fn rule_of(plan: &Plan, plp: usize) -> SlotRule
    requires { plp < length plan.now.plps }
    ensures is { result ≡ slot_rule plan.now plp }
    ensures sound { IsSound result }
{
    length_law();
    plan.rules_law();
    SlotRule {
        times: plan.slot_times(plp),
        ticks: u64::from(plan.config().ticks),
        spread: u64::from(plan.spread(plp)),
        up_len: plan.up_bytes(plp) as usize,
        deletes: plan.deletes(plp),
    }
}

/// Room for its slots.
///
/// # Errors
/// There is no memory for them.
pub fn open_slots(alloc: Global, plan: &Plan, plp: usize) -> Result<PacketSlots, AllocError>
    requires { plp < length plan.now.plps }
    ensures fresh { IfOk result (λ p. IsFresh p (slot_rule plan.now plp)) }
    ensures status { IfOk result (λ p. slots_status p ≡ slots.new_status (slot_rule plan.now plp)) }
    ensures window { IfOk result (λ p. window_slots (rule_of p).times.num (rule_of p).times.den
        (delay_of (rule_of p).times)
        (rule_of p).ticks ≡ window plan.now plp) }
{
    PacketSlots::open(alloc, rule_of(plan, plp))
}
