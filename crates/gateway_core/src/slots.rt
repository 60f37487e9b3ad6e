// The packets of the slot under way.
ghost use Rattle.std.specs.Prelude.{◌≡◌, ◌<◌, ◌==◌, ◌++◌, ℕ, List, length, true, false};
ghost use Rattle.std.specs.declared.option.Option.{Option};
ghost use Rattle.common_plp.specs.Groups.{is_common, group_of};
ghost use Rattle.common_plp.specs.Shared.{shared_packet};
ghost use Rattle.common_plp.specs.StandsFor.{SplitterStandsFor};
ghost use Rattle.gateway_core.specs.StandsFor.{plps_of};
ghost use Rattle.gateway_core.specs.Order.{is_member};
ghost use Rattle.gateway_core.specs.Slots.{HasCome, ComesOf, FindsNext, is_held_in, any_held, slot_in, seen_of};

use crate::gateway::Gateway;
use common_plp::{Splitter, is_common};
use plp_config::Plan;
use ts_packet::TsPacket;

// Whether two PLPs are of one group.
fn is_one_group(plan: &Plan, plp: usize, other: usize) -> bool
    requires plp { plp < length plan.now.plps }
    requires other { other < length plan.now.plps }
    ensures { result ≡ (group_of plan.now plp == group_of plan.now other) }
{
    plan.config().plps.get(plp).unwrap().group == plan.config().plps.get(other).unwrap().group
}

/// Whether a PLP has an input in the group whose first PLP is this one.
pub fn is_member(plan: &Plan, turn: usize, plp: usize) -> bool
    requires turn { turn < length plan.now.plps }
    requires plp { plp < length plan.now.plps }
    ensures { result ≡ is_member plan.now turn plp }
{
    let config = plan.config();
    if is_common(config, turn) {
        return !is_common(config, plp) && is_one_group(plan, plp, turn);
    }
    plp == turn
}

// Whether a packet of the slot is to come of an input of a group.
fn is_to_come(
    plan: &Plan,
    gateway: &Gateway<'_>,
    held: &[Option<TsPacket>],
    turn: usize,
    plp: usize,
) -> bool
    requires turn { turn < length plan.now.plps }
    requires place { plp < length plan.now.plps }
    requires plps { plps_of gateway.now ≡ length plan.now.plps }
    requires held { length held.now ≡ length plan.now.plps }
    ensures some { result ≡ true → ComesOf plan.now gateway.now held.now turn plp }
    ensures none { result ≡ false → HasCome plan.now gateway.now held.now turn plp }
{
    is_member(plan, turn, plp) && held[plp].is_none() && gateway.wants(plp) > 0
}

/// The first input of a group of which a packet of the slot is to come.
pub fn next_in(
    plan: &Plan,
    gateway: &Gateway<'_>,
    held: &[Option<TsPacket>],
    turn: usize,
) -> Option<usize>
    requires turn { turn < length plan.now.plps }
    requires plps { plps_of gateway.now ≡ length plan.now.plps }
    requires held { length held.now ≡ length plan.now.plps }
    ensures { FindsNext plan.now gateway.now held.now turn (length plan.now.plps) result }
{
    for plp in 0..plan.config().plps.len() {
        if is_to_come(plan, gateway, held, turn, plp) {
            return Some(plp);
        }
    }
    None
}

// Whether a packet of the slot is held of an input, which is in a group.
fn is_held(plan: &Plan, held: &[Option<TsPacket>], turn: usize, plp: usize) -> bool
    requires turn { turn < length plan.now.plps }
    requires place { plp < length plan.now.plps }
    requires held { length held.now ≡ length plan.now.plps }
    ensures { result ≡ is_held_in plan.now held.now turn plp }
{
    is_member(plan, turn, plp) && held[plp].is_some()
}

/// Whether a packet of the slot is held of an input of a group.
pub fn has_held(plan: &Plan, held: &[Option<TsPacket>], turn: usize) -> bool
    requires turn { turn < length plan.now.plps }
    requires held { length held.now ≡ length plan.now.plps }
    ensures { result ≡ any_held plan.now held.now turn (length plan.now.plps) }
{
    for plp in 0..plan.config().plps.len() {
        if is_held(plan, held, turn, plp) {
            return true;
        }
    }
    false
}

// Sees what an input has in the slot, if it is in a group.
fn see_in(plan: &Plan, splitter: &mut Splitter, held: &[Option<TsPacket>], turn: usize, plp: usize)
    requires turn { turn < length plan.now.plps }
    requires place { plp < length plan.now.plps }
    requires held { length held.now ≡ length plan.now.plps }
    ensures { (slot : List (Option (List ℕ))) (shared : Option (List ℕ)) → SplitterStandsFor splitter.old slot shared
        → SplitterStandsFor splitter.new (slot ++ seen_of plan.now held.now turn plp) shared }
{
    if is_member(plan, turn, plp) {
        splitter.see(held[plp].as_ref());
    }
}

// The packet of the last slot, if its inputs shared one.
fn verdict(splitter: &mut Splitter) -> Option<TsPacket>
    ensures { (slot : List (Option (List ℕ))) (shared : Option (List ℕ)) → SplitterStandsFor splitter.old slot shared
        → result ≡ shared_packet slot }
{
    if splitter.verdict() {
        Some(*splitter.shared())
    } else {
        None
    }
}

/// The packet that all inputs of the group of a common PLP have in the slot, if they share one.
pub fn shared_in(plan: &Plan, held: &[Option<TsPacket>], turn: usize) -> Option<TsPacket>
    requires turn { turn < length plan.now.plps }
    requires common { is_common plan.now turn ≡ true }
    requires held { length held.now ≡ length plan.now.plps }
    ensures { result ≡ shared_packet (slot_in plan.now held.now turn) }
{
    let mut splitter = Splitter::new();
    for plp in 0..plan.config().plps.len() {
        see_in(plan, &mut splitter, held, turn, plp);
    }
    verdict(&mut splitter)
}
