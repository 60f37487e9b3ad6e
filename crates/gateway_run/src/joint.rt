// The gateway with common PLPs.
ghost use Rattle.common_plp.specs.Sharing.{Joint};
ghost use Rattle.gateway_core.specs.SplitStandsFor.{status_of};
ghost use Rattle.gateway_run.specs.Joint.{seen_of};

use crate::frame_gateway::FrameGateway;
use common_plp::commons;
use gateway_core::SplitGateway;
use plp_config::Plan;
use ts_packet::{SIZE, TsPacket};

impl<'p> FrameGateway for SplitGateway<'p> {
    ghost sharing = { Joint };

    ghost seen = { seen_of };

    ghost status = { status_of };

    fn place_of(&self, plan: &Plan, input: usize) -> usize {
        input + commons(plan.config())
    }

    fn look(&mut self, plan: &Plan) -> Option<usize> {
        plan.rules_law();
        match self.next() {
            Some(plp) => Some(plp - commons(plan.config())),
            None => None,
        }
    }

    fn wants(&self, plan: &Plan, input: usize) -> u64 {
        self.wants(input + commons(plan.config()))
    }

    fn offer(&mut self, plan: &Plan, input: usize, packet: &TsPacket) -> Option<usize> {
        self.offer(input + commons(plan.config()), packet);
        self.look(plan)
    }

    fn end_input(&mut self, plan: &Plan, input: usize) -> Option<usize> {
        self.end_input(input + commons(plan.config()));
        self.look(plan)
    }

    fn last(&self, plan: &Plan) -> bool {
        plan.rules_law();
        self.last()
    }

    fn begin_frame(&mut self, _plan: &Plan) {
        self.begin_frame();
    }

    fn next_ts(&mut self, _plan: &Plan, out: &mut [u8; SIZE]) -> bool {
        self.next_ts(out)
    }

    fn finish(&mut self, _plan: &Plan) {
        self.finish();
    }
}
