// The gateway each of whose inputs goes in its own PLP.
ghost use Rattle.std.specs.Prelude.{◌≡◌, ◌≤◌};
ghost use Rattle.common_plp.specs.Sharing.{Apart};
ghost use Rattle.gateway_core.specs.StandsFor.{plps_of, status_of};
ghost use Rattle.gateway_run.specs.Apart.{IsFirst, seen_of};

use crate::frame_gateway::FrameGateway;
use gateway_core::Gateway;
use plp_config::Plan;
use ts_packet::{SIZE, TsPacket};

// The first input from this one on of which packets are wanted.
fn first_wanted(gateway: &Gateway<'_>, from: usize, count: usize) -> Option<usize>
    requires count { count ≡ plps_of gateway.now }
    requires within { from ≤ count }
    ensures { IsFirst gateway.now from count result }
{
    let mut plp = from;
    while plp < count {
        if gateway.wants(plp) > 0 {
            return Some(plp);
        }
        plp += 1;
    }
    None
}

impl<'p> FrameGateway for Gateway<'p> {
    ghost sharing = { Apart };

    ghost seen = { seen_of };

    ghost status = { status_of };

    fn place_of(&self, _plan: &Plan, input: usize) -> usize {
        input
    }

    fn look(&mut self, plan: &Plan) -> Option<usize> {
        first_wanted(self, 0, plan.config().plps.len())
    }

    fn wants(&self, _plan: &Plan, input: usize) -> u64 {
        self.wants(input)
    }

    fn offer(&mut self, plan: &Plan, input: usize, packet: &TsPacket) -> Option<usize> {
        self.offer(input, packet);
        first_wanted(self, input, plan.config().plps.len())
    }

    fn end_input(&mut self, plan: &Plan, input: usize) -> Option<usize> {
        self.end_input(input);
        first_wanted(self, input, plan.config().plps.len())
    }

    fn last(&self, _plan: &Plan) -> bool {
        self.last()
    }

    fn begin_frame(&mut self, _plan: &Plan) {
        self.begin_frame();
    }

    fn next_ts(&mut self, _plan: &Plan, out: &mut [u8; SIZE]) -> bool {
        self.next_ts(out)
    }

    fn finish(&mut self, _plan: &Plan) {
        self.finish();
    }
}
