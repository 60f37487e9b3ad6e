// What goes on of a slot.
ghost use Rattle.std.specs.Prelude.{◌≡◌, ◌≢◌, ◌<◌, ◌++◌, ℕ, List, false, true, length, None, Some, IfSome};
ghost use Rattle.plp_config.specs.declared.config.Config.{Config};
ghost use Rattle.common_plp.specs.Groups.{is_common, common_of, grouping_of};
ghost use Rattle.gateway_core.specs.Events.{Event};
ghost use Rattle.gateway_core.specs.StandsFor.{GatewayStandsFor, plps_of, wants_of, has_unit, status_of};
ghost use Rattle.gateway_core.specs.Order.{is_member};
ghost use Rattle.gateway_core.specs.Slots.{held_at, passed_of, passed, PassesOne, PassesOn, OthersWant, HeldWanted};
ghost use Rattle.gateway_core.specs.Slots.{FindsNext, share_events, pass_events};
ghost use Rattle.gateway_core.specs.Works.{Moves, SettlesOn, FindsFirst};

use crate::gateway::Gateway;
use crate::slots::{has_held, is_member, next_in, shared_in};
use common_plp::{Groups, groups_law, is_common};
use plp_config::Plan;
use ts_packet::TsPacket;

// What goes on of the input of a PLP: the packet that is held, or a null packet if it is shared.
fn pass_one(
    plan: &Plan,
    gateway: &mut Gateway<'_>,
    held: &mut [Option<TsPacket>],
    turn: usize,
    shared: bool,
    plp: usize,
)
    requires turn { turn < length plan.now.plps }
    requires place { plp < length plan.now.plps }
    requires plps { plps_of gateway.old ≡ length plan.now.plps }
    requires held { length held.old ≡ length plan.now.plps }
    requires wanted { is_member plan.now turn plp ≡ true → held_at held.old plp ≢ None → 0 < wants_of gateway.old plp }
    requires given { has_unit gateway.old ≡ false }
    ensures stands { (c : Config) (done : List Event) → GatewayStandsFor gateway.old c done
        → GatewayStandsFor gateway.new c (done ++ passed_of plan.now held.old turn shared plp) }
    ensures others { (other : ℕ) → other ≢ plp → wants_of gateway.new other ≡ wants_of gateway.old other }
    ensures same { is_member plan.now turn plp ≡ false → wants_of gateway.new plp ≡ wants_of gateway.old plp }
    ensures fewer { is_member plan.now turn plp ≡ true → held_at held.old plp ≢ None
        → wants_of gateway.new plp < wants_of gateway.old plp }
    ensures status { status_of gateway.new ≡ status_of gateway.old }
    ensures held { PassesOne plan.now held.old turn plp held.new }
{
    if !is_member(plan, turn, plp) {
        return;
    }
    if let Some(packet) = held[plp] {
        if shared {
            gateway.offer(plp, &TsPacket::canonical());
        } else {
            gateway.offer(plp, &packet);
        }
        held[plp] = None;
    }
}

/// What goes on of the inputs of a group.
pub fn pass_on(
    plan: &Plan,
    gateway: &mut Gateway<'_>,
    held: &mut [Option<TsPacket>],
    turn: usize,
    shared: bool,
)
    requires turn { turn < length plan.now.plps }
    requires plps { plps_of gateway.old ≡ length plan.now.plps }
    requires held { length held.old ≡ length plan.now.plps }
    requires wanted { (plp : ℕ) → plp < length plan.now.plps → is_member plan.now turn plp ≡ true
        → held_at held.old plp ≢ None
        → 0 < wants_of gateway.old plp }
    requires given { has_unit gateway.old ≡ false }
    ensures stands { (c : Config) (done : List Event) → GatewayStandsFor gateway.old c done
        → GatewayStandsFor gateway.new c (done ++ passed plan.now held.old turn shared (length plan.now.plps)) }
    ensures others { OthersWant plan.now turn gateway.old gateway.new }
    ensures fewer { (plp : ℕ) → is_member plan.now turn plp ≡ true → held_at held.old plp ≢ None
        → plp < length plan.now.plps
        → wants_of gateway.new plp < wants_of gateway.old plp }
    ensures first { is_member plan.now turn turn ≡ false → wants_of gateway.new turn ≡ wants_of gateway.old turn }
    ensures status { status_of gateway.new ≡ status_of gateway.old }
    ensures held { PassesOn plan.now held.old turn (length plan.now.plps) held.new }
{
    for plp in 0..plan.config().plps.len() {
        pass_one(plan, gateway, held, turn, shared, plp);
    }
}

// The slot of the group of a common PLP goes on: what all of its inputs share goes in the common PLP alone.
fn share(plan: &Plan, gateway: &mut Gateway<'_>, held: &mut [Option<TsPacket>], turn: usize)
    requires turn { turn < length plan.now.plps }
    requires common { is_common plan.now turn ≡ true }
    requires plps { plps_of gateway.old ≡ length plan.now.plps }
    requires held { length held.old ≡ length plan.now.plps }
    requires wanted { HeldWanted plan.now gateway.old held.old }
    requires some { 0 < wants_of gateway.old turn }
    requires given { has_unit gateway.old ≡ false }
    ensures stands { (c : Config) (done : List Event) → GatewayStandsFor gateway.old c done
        → GatewayStandsFor gateway.new c (done ++ share_events plan.now held.old turn (length plan.now.plps)) }
    ensures others { OthersWant plan.now turn gateway.old gateway.new }
    ensures fewer { wants_of gateway.new turn < wants_of gateway.old turn }
    ensures status { status_of gateway.new ≡ status_of gateway.old }
    ensures held { PassesOn plan.now held.old turn (length plan.now.plps) held.new }
{
    let shared = shared_in(plan, held, turn);
    gateway.offer(turn, &shared.unwrap_or(TsPacket::canonical()));
    pass_on(plan, gateway, held, turn, shared.is_some());
}

// All of a slot of a group has come: it goes on, or the stream of the common PLP ends if all inputs did.
fn pass(plan: &Plan, gateway: &mut Gateway<'_>, held: &mut [Option<TsPacket>], turn: usize)
    requires turn { turn < length plan.now.plps }
    requires plps { plps_of gateway.old ≡ length plan.now.plps }
    requires held { length held.old ≡ length plan.now.plps }
    requires wanted { HeldWanted plan.now gateway.old held.old }
    requires some { 0 < wants_of gateway.old turn }
    requires come { FindsNext plan.now gateway.old held.old turn (length plan.now.plps) None }
    requires given { has_unit gateway.old ≡ false }
    ensures stands { (c : Config) (done : List Event) → GatewayStandsFor gateway.old c done
        → GatewayStandsFor gateway.new c (done ++ pass_events plan.now held.old turn (length plan.now.plps)) }
    ensures others { OthersWant plan.now turn gateway.old gateway.new }
    ensures fewer { wants_of gateway.new turn < wants_of gateway.old turn }
    ensures status { status_of gateway.new ≡ status_of gateway.old }
    ensures held { PassesOn plan.now held.old turn (length plan.now.plps) held.new }
{
    if !has_held(plan, held, turn) {
        gateway.end_input(turn);
    } else if is_common(plan.config(), turn) {
        share(plan, gateway, held, turn);
    } else {
        pass_on(plan, gateway, held, turn, false);
    }
}

// Slots of a group go on until a packet of an input is to come, or nothing is wanted of the group: which input that is.
fn settle(
    plan: &Plan,
    gateway: &mut Gateway<'_>,
    held: &mut [Option<TsPacket>],
    turn: usize,
) -> Option<usize>
    requires turn { turn < length plan.now.plps }
    requires first { common_of plan.now turn ≡ None }
    requires plps { plps_of gateway.old ≡ length plan.now.plps }
    requires held { length held.old ≡ length plan.now.plps }
    requires wanted { HeldWanted plan.now gateway.old held.old }
    requires given { has_unit gateway.old ≡ false }
    ensures moves { Moves plan.now gateway.old gateway.new held.old held.new }
    ensures others { OthersWant plan.now turn gateway.old gateway.new }
    ensures settles { SettlesOn plan.now gateway.new held.new turn result }
{
    groups_law();
    plan.rules_law();
    while gateway.wants(turn) > 0 {
        if let Some(plp) = next_in(plan, gateway, held, turn) {
            return Some(plp);
        }
        pass(plan, gateway, held, turn);
    }
    None
}

// The same of the PLP at a place, if it is the first of its group.
fn settle_first(
    plan: &Plan,
    groups: &Groups,
    gateway: &mut Gateway<'_>,
    held: &mut [Option<TsPacket>],
    turn: usize,
) -> Option<usize>
    requires groups { groups.now ≡ grouping_of plan.now }
    requires turn { turn < length plan.now.plps }
    requires plps { plps_of gateway.old ≡ length plan.now.plps }
    requires held { length held.old ≡ length plan.now.plps }
    requires wanted { HeldWanted plan.now gateway.old held.old }
    requires given { has_unit gateway.old ≡ false }
    ensures moves { Moves plan.now gateway.old gateway.new held.old held.new }
    ensures others { common_of plan.now turn ≡ None → OthersWant plan.now turn gateway.old gateway.new }
    ensures same { common_of plan.now turn ≢ None → gateway.new ≡ gateway.old }
    ensures first { IfSome result (λ plp. common_of plan.now turn ≡ None) }
    ensures settles { common_of plan.now turn ≡ None → SettlesOn plan.now gateway.new held.new turn result }
{
    groups_law();
    if groups.common_of(turn).is_some() {
        return None;
    }
    settle(plan, gateway, held, turn)
}

/// All slots of which all has come go on. The input of which the next frame wants a packet first, if it wants one.
pub fn find_next(
    plan: &Plan,
    groups: &Groups,
    gateway: &mut Gateway<'_>,
    held: &mut [Option<TsPacket>],
) -> Option<usize>
    requires groups { groups.now ≡ grouping_of plan.now }
    requires plps { plps_of gateway.old ≡ length plan.now.plps }
    requires held { length held.old ≡ length plan.now.plps }
    requires wanted { HeldWanted plan.now gateway.old held.old }
    requires given { has_unit gateway.old ≡ false }
    ensures moves { Moves plan.now gateway.old gateway.new held.old held.new }
    ensures finds { FindsFirst plan.now gateway.new held.new result }
{
    plan.rules_law();
    for turn in 0..plan.config().plps.len() {
        if let Some(plp) = settle_first(plan, groups, gateway, held, turn) {
            return Some(plp);
        }
    }
    None
}
