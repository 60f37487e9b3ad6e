// The gateway with common PLPs.
ghost use Rattle.std.specs.Prelude.{◌≡◌, ◌<◌, vec_len, length, replicate, IfOk, None};
ghost use Rattle.common_plp.specs.Groups.{grouping_of};
ghost use Rattle.gateway_core.specs.StandsFor as core;
ghost use Rattle.gateway_core.specs.Slots.{HeldWanted};
ghost use Rattle.gateway_core.specs.Works.{HasWorked};

use crate::gateway::Gateway;
use crate::laws::not_yet_last_law;
use crate::passing::find_next;
use bit_slice::OutOfMemory;
use common_plp::{Groups, groups_law};
use plp_config::Plan;
use std::alloc::Global;
use ts_packet::{SIZE, TsPacket};

/// Makes the T2-MI stream of a network from the packets of the inputs of its PLPs that are not common: a packet that
/// all inputs of a group have in a slot goes once, in the common PLP of the group.
///
/// Ask which packet comes [`next`](Self::next), and [`offer`](Self::offer) it, or [`end_input`](Self::end_input), until
/// none comes;
/// begin the frame; take the units; behind the last frame finish, and take the rest. An input is named by the place of
/// its PLP.
#[derive(Drop)]
pub struct SplitGateway<'p> {
    plan: &'p Plan,
    gateway: Gateway<'p>,
    groups: Groups,
    // The packet of each input that came and did not go on yet: it waits for the other ones of the slot.
    held: Vec<Option<TsPacket>>,
    ghost plps: { core.plps_of gateway ≡ length plan.now.plps },
    ghost whole: { vec_len held ≡ length plan.now.plps },
    ghost grouped: { groups ≡ grouping_of plan.now },
    ghost wanted: { HeldWanted plan.now gateway held.items },
    ghost worked: { ∥ HasWorked plan.now gateway held.items ∥₁ },
}

// No packet for each PLP.
fn none_held(alloc: Global, count: usize) -> Result<Vec<Option<TsPacket>>, OutOfMemory>
    ensures none { IfOk result (λ held. held.items ≡ replicate count None) }
    ensures count { IfOk result (λ held. vec_len held ≡ count) }
{
    let mut held = Vec::new(alloc);
    for _ in 0..count {
        held.push(None)?;
    }
    Ok(held)
}

impl<'p> SplitGateway<'p> {
    ghost use Rattle.std.specs.Prelude.{◌≤◌, ◌+◌, ◌-◌, ◌*◌, ◌^◌, ◌++◌, ◌∷◌, ◌↔◌, ℕ, List, [], true, false, Some};
    ghost use Rattle.std.specs.Prelude.{slice_get};
    ghost use Rattle.plp_config.specs.declared.config.Config.{Config};
    ghost use Rattle.plp_config.specs.declared.moment.TheConstants.{MOST_FRAMES};
    ghost use Rattle.t2mi_stream.specs.Complete.{complete_units};
    ghost use Rattle.t2mi_stream.specs.Pipe.{pipe};
    ghost use Rattle.common_plp.specs.Split.{split};
    ghost use Rattle.gateway_core.specs.Events.{Event, Offered, Ended, Begun, Gave, Finished, offered, begun, given};
    ghost use Rattle.gateway_core.specs.Events.{finished};
    ghost use Rattle.plp_config.specs.SlotTime.{slots_by};
    ghost use Rattle.gateway_core.specs.Packets.{front_packets};
    ghost use Rattle.gateway_core.specs.StandsFor.{new_status};
    ghost use Rattle.gateway_core.specs.Continuing.{InputsContinue, IsLast};
    ghost use Rattle.gateway_core.specs.SplitStandsFor.{SplitGatewayStandsFor, IsAsked, NoneWanted, Asks, FindsWanted};
    ghost use Rattle.gateway_core.specs.SplitStandsFor.{config_of, wants_of};
    ghost use Rattle.gateway_core.specs.SplitStandsFor.{frame_of, has_unit, bytes_left, has_finished, status_of};

    /// A gateway to which nothing came, for a plan. It takes all the memory that it needs.
    pub fn open(alloc: Global, plan: &'p Plan) -> Result<SplitGateway<'p>, OutOfMemory>
        ensures config { IfOk result (λ s. config_of s ≡ plan.now) }
        ensures stands { IfOk result (λ s. SplitGatewayStandsFor s plan.now []) }
        ensures status { IfOk result (λ s. status_of s ≡ new_status (length plan.now.plps)) }
    {
        let count = plan.config().plps.len();
        let gateway = Gateway::open(alloc, plan)?;
        let groups = Groups::open(alloc, plan)?;
        let held = none_held(alloc, count)?;
        Ok(SplitGateway {
            plan,
            gateway,
            groups,
            held,
        })
    }

    /// The input of which the next frame wants a packet first, group by group, slot by slot and input by input; `None`
    /// if it wants no more.
    pub fn next(&mut self) -> Option<usize>
        requires given { has_unit self.old ≡ false }
        ensures stands { (c : Config) (events : List Event) → SplitGatewayStandsFor self.old c events
            → SplitGatewayStandsFor self.new c events }
        ensures asks { Asks self.new result }
        ensures first { (c : Config) (events : List Event) → SplitGatewayStandsFor self.new c events
            → FindsWanted c events result }
        ensures config { config_of self.new ≡ config_of self.old }
        ensures status { status_of self.new ≡ status_of self.old }
    {
        self.plan.rules_law();
        groups_law();
        find_next(self.plan, &self.groups, &mut self.gateway, &mut self.held)
    }

    /// How many packets the next frame still wants of an input that was asked for.
    pub fn wants(&self, plp: usize) -> u64
        requires { IsAsked self.now plp }
        ensures value { result ≡ wants_of self.now plp }
        ensures some { 0 < result }
        ensures answer { (c : Config) (events : List Event) → SplitGatewayStandsFor self.now c events
            → result ≡ slots_by c plp (begun events * c.ticks) - length (offered plp events) }
    {
        self.gateway.wants(plp)
    }

    /// Takes the packet of an input that was asked for.
    pub fn offer(&mut self, plp: usize, packet: &TsPacket)
        requires { IsAsked self.old plp }
        ensures stands { (c : Config) (events : List Event) → SplitGatewayStandsFor self.old c events
            → SplitGatewayStandsFor self.new c (events ++ Offered plp packet.now ∷ []) }
        ensures config { config_of self.new ≡ config_of self.old }
        ensures status { status_of self.new ≡ status_of self.old }
    {
        self.held[plp] = Some(*packet);
    }

    /// An input that was asked for has ended: null packets follow.
    pub fn end_input(&mut self, plp: usize)
        requires { IsAsked self.old plp }
        ensures stands { (c : Config) (events : List Event) → SplitGatewayStandsFor self.old c events
            → SplitGatewayStandsFor self.new c (events ++ Ended plp ∷ []) }
        ensures config { config_of self.new ≡ config_of self.old }
        ensures status { status_of self.new ≡ status_of self.old }
    {
        self.gateway.end_input(plp);
    }

    /// Begins the next frame, which wants no more packets and has a number below `plp_config::MOST_FRAMES`, once all
    /// complete units were taken and before [`SplitGateway::finish`].
    pub fn begin_frame(&mut self)
        requires wanted { NoneWanted self.old }
        requires given { has_unit self.old ≡ false }
        requires early { frame_of self.old < MOST_FRAMES }
        requires going { has_finished self.old ≡ false }
        ensures stands { (c : Config) (events : List Event) → SplitGatewayStandsFor self.old c events
            → SplitGatewayStandsFor self.new c (events ++ Begun ∷ []) }
        ensures frame { frame_of self.new ≡ frame_of self.old + 1 }
        ensures config { config_of self.new ≡ config_of self.old }
        ensures status { status_of self.new ≡ record (status_of self.old) {
          frame = frame_of self.new;
          unit = has_unit self.new;
          left = bytes_left self.new;
        } }
        ensures more { bytes_left self.new ≤ bytes_left self.old + 2 ^ 32 }
    {
        self.gateway.begin_frame();
    }

    /// Gives the next unit of the frames begun, a transport packet, if it is complete. After [`SplitGateway::finish`]
    /// it gives also the rest. Else `out` stays.
    pub fn next_ts(&mut self, out: &mut [u8; SIZE]) -> bool
        ensures is { result ≡ has_unit self.old }
        // Whatever packets follow, the unit is the next one of all.
        ensures unit { result ≡ true → (c : Config) (events : List Event) → SplitGatewayStandsFor self.old c events
            → (inputs : ℕ → List (List ℕ)) → InputsContinue c events inputs
            → (more : List (List ℕ)) → (finished events ≡ true → more ≡ [])
            → slice_get (pipe c.pid (front_packets c (split c inputs) (begun events) ++ more)) (given events) ≡ Some
            out.new }
        ensures stands { result ≡ true → (c : Config) (events : List Event) → SplitGatewayStandsFor self.old c events
            → SplitGatewayStandsFor self.new c (events ++ Gave ∷ []) }
        ensures still { result ≡ false → (c : Config) (events : List Event) → SplitGatewayStandsFor self.old c events
            → SplitGatewayStandsFor self.new c events }
        ensures stays { result ≡ false → (has_unit self.new ≡ false) × (out.new ≡ out.old) }
        ensures less { result ≡ true → bytes_left self.new < bytes_left self.old }
        ensures kept { result ≡ false → bytes_left self.new ≡ bytes_left self.old }
        // Before the end all units of the frames begun that are complete are given; after it none is left out.
        ensures caught_up { result ≡ false → (c : Config) (events : List Event)
            → SplitGatewayStandsFor self.old c events
            → finished events ≡ false → (inputs : ℕ → List (List ℕ)) → InputsContinue c events inputs
            → given events ≡ length (complete_units c.pid (front_packets c (split c inputs) (begun events))) }
        ensures none { result ≡ false → (c : Config) (events : List Event) → SplitGatewayStandsFor self.old c events
            → finished events ≡ true → (inputs : ℕ → List (List ℕ)) → InputsContinue c events inputs
            → length (pipe c.pid (front_packets c (split c inputs) (begun events))) ≡ given events }
        ensures config { config_of self.new ≡ config_of self.old }
        ensures status { status_of self.new ≡ record (status_of self.old) {
          unit = has_unit self.new;
          left = bytes_left self.new;
        } }
    {
        self.gateway.next_ts(out)
    }

    /// Whether all inputs ended and as many frames were begun as their streams need. The next frame wants no more
    /// packets.
    pub fn last(&self) -> bool
        requires { NoneWanted self.now }
        ensures { (c : Config) (events : List Event) → SplitGatewayStandsFor self.now c events → (result ≡ true)
            ↔ IsLast c events }
    {
        self.plan.rules_law();
        not_yet_last_law();
        self.gateway.last()
    }

    /// No more frames come: the rest of the units can be taken.
    pub fn finish(&mut self)
        ensures stands { (c : Config) (events : List Event) → SplitGatewayStandsFor self.old c events
            → SplitGatewayStandsFor self.new c (events ++ Finished ∷ []) }
        ensures config { config_of self.new ≡ config_of self.old }
        ensures status { status_of self.new ≡ record (status_of self.old) {
          unit = has_unit self.new;
          finished = true;
        } }
    {
        self.gateway.finish();
    }
}
