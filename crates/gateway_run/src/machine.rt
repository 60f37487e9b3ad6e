// The gateway as a machine between files.
ghost use Rattle.gateway_run.specs.Ready.{IsReady, IsReady-prop};

use crate::frame_gateway::FrameGateway;
use crate::place::{Phase, Place};
use crate::steps::{begin, end_input, give, take_packets};
use crate::stop::{GatewayRan, GatewayStop};
use file_run::{Ending, Machine, Step, events_law};
use plp_config::Plan;
use ts_packet::SIZE;

/// A gateway that is fed with the bytes of its inputs and gives the bytes of its units.
#[derive(Drop)]
pub struct GatewayMachine<'p, G: FrameGateway + Drop> {
    plan: &'p Plan,
    gateway: G,
    place: Place,
    // How many frames were begun, and how many units given.
    ran: GatewayRan,
    ghost ready: { IsReady G.sharing plan.now (G.seen gateway plan.now) (G.status gateway) place ran } by { IsReady-prop G.sharing plan.now (G.seen gateway plan.now) (G.status gateway) place ran },
}

// No more packets than these are to wait.
const PACKETS: u64 = 1 << 30;

impl<'p, G: FrameGateway + Drop> Machine for GatewayMachine<'p, G> {
    ghost use Rattle.common_plp.specs.Inputs.{input_count};
    ghost use Rattle.gateway_run.specs.Phases.{step_by, reach_by, left_by};
    ghost use Rattle.gateway_run.specs.Ready.{Becomes};

    ghost Becomes = { λ start events m.
        Becomes G.sharing start.plan.now m.plan.now (G.seen m.gateway m.plan.now) m.place m.ran events };

    ghost inputs = { λ m. input_count G.sharing m.plan.now };

    ghost next = { λ m. step_by ((G.seen m.gateway m.plan.now).wants m.place.input) m.place.input m.place.phase };

    ghost left = { λ m. left_by (G.status m.gateway).left m.place.phase m.ran.frames };

    ghost reach = { λ m input. reach_by G.sharing m.plan.now m.place.phase m.ran.frames input };

    fn step(&self) -> Step {
        match self.place.phase {
            Phase::Wants => Step::Read {
                input: self.place.input,
                least: SIZE,
                most: SIZE as u64 * self.gateway.wants(self.plan, self.place.input).min(PACKETS),
            },
            Phase::Begins | Phase::Gives | Phase::Rests => Step::Give,
            Phase::Done | Phase::Stopped(_) => Step::End,
        }
    }

    fn feed(&mut self, _input: usize, bytes: &[u8]) -> usize {
        take_packets(
            &mut self.gateway,
            self.plan,
            &mut self.place,
            self.ran,
            bytes,
        )
    }

    fn end_input(&mut self, _input: usize, bytes: &[u8]) {
        self.place = end_input(&mut self.gateway, self.plan, self.place, self.ran, bytes);
    }

    fn give(&mut self, out: &mut [u8]) -> usize {
        if let Phase::Begins = self.place.phase {
            events_law();
            self.place = begin(&mut self.gateway, self.plan, self.place, &mut self.ran);
            return 0;
        }
        give(
            &mut self.gateway,
            self.plan,
            &mut self.place,
            &mut self.ran,
            out,
        )
    }
}

impl<'p, G: FrameGateway + Drop> Ending for GatewayMachine<'p, G> {
    ghost use Rattle.gateway_run.specs.Phases.{ending_of};

    type Ran = GatewayRan;

    type Stop = GatewayStop;

    ghost ending = { λ m. ending_of m.place.phase m.ran };

    fn ending(&self) -> Result<GatewayRan, GatewayStop> {
        match self.place.phase {
            Phase::Stopped(why) => Err(why),
            _ => Ok(self.ran),
        }
    }
}

impl<'p, G: FrameGateway + Drop> GatewayMachine<'p, G> {
    ghost use Rattle.std.specs.Prelude.{◌≡◌, [], length};
    ghost use Rattle.gateway_core.specs.StandsFor.{new_status};
    ghost use Rattle.gateway_run.specs.Ready.{Becomes};

    /// A gateway of a plan to which nothing was fed.
    pub fn new(plan: &'p Plan, gateway: G) -> GatewayMachine<'p, G>
        requires is_of { (G.seen gateway plan.now).is_of }
        requires stands { (G.seen gateway plan.now).stands [] }
        requires status { G.status gateway ≡ new_status (length plan.now.plps) }
        ensures plan { result.plan.now ≡ plan.now }
        ensures becomes { Becomes G.sharing plan.now result.plan.now (G.seen result.gateway result.plan.now)
            result.place result.ran [] }
    {
        plan.rules_law();
        GatewayMachine {
            plan,
            gateway,
            place: Place {
                input: 0,
                phase: Phase::Gives,
            },
            ran: GatewayRan {
                frames: 0,
                units: 0,
            },
        }
    }
}
