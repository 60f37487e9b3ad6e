// A run of the gateway of a plan.
ghost use Rattle.std.specs.Prelude.{◌≡◌, [], length};
ghost use Rattle.common_plp.specs.Inputs.{input_count};
ghost use Rattle.common_plp.specs.Sharing.{Apart, Joint};
ghost use Rattle.file_run.specs.FileRun.{AreApart};
ghost use Rattle.file_run.specs.Work.{Ends, Into};
ghost use Rattle.gateway_core.specs.StandsFor.{new_status};
ghost use Rattle.gateway_run.specs.GatewayRun.{gateway_work};

use crate::frame_gateway::FrameGateway;
use crate::machine::GatewayMachine;
use crate::stop::{GatewayRan, GatewayStop};
use file_run::{Output, RunStop, events_law, run_one};
use gateway_core::{Gateway, SplitGateway, ahead_law, front_law, units_law};
use plp_config::Plan;
use ports::{Desk, Word};
use std::alloc::Global;

// Runs a gateway to which nothing was told.
fn run_with<G: FrameGateway + Drop, D: Desk>(
    alloc: Global,
    plan: &Plan,
    gateway: G,
    out: &str,
    ins: &[Word],
    desk: &mut D,
) -> Result<GatewayRan, RunStop<GatewayStop>>
    requires is_of { (G.seen gateway plan.now).is_of }
    requires stands { (G.seen gateway plan.now).stands [] }
    requires status { G.status gateway ≡ new_status (length plan.now.plps) }
    requires count { length ins.now ≡ input_count G.sharing plan.now }
    requires apart { AreApart out.now ins.now }
    ensures ends { Ends (gateway_work G.sharing plan.now) (D.state desk.old) (D.state desk.new) (Into out.now) ins.now
        result }
{
    events_law();
    front_law();
    units_law();
    ahead_law();
    let mut machine = GatewayMachine::new(plan, gateway);
    run_one(alloc, &mut machine, Output::File(out), ins, desk)
}

/// Runs the gateway of a plan: opens the inputs, one for each PLP, in turn; creates the output; and goes frame by frame
/// through the inputs, writing all units that are complete before it reads on. All memory is taken before the first
/// input is opened.
pub fn run<D: Desk>(
    alloc: Global,
    plan: &Plan,
    out: &str,
    ins: &[Word],
    desk: &mut D,
) -> Result<GatewayRan, RunStop<GatewayStop>>
    requires count { length ins.now ≡ input_count Apart plan.now }
    requires apart { AreApart out.now ins.now }
    ensures ends { Ends (gateway_work Apart plan.now) (D.state desk.old) (D.state desk.new) (Into out.now) ins.now
        result }
{
    let gateway = Gateway::open(alloc, plan)?;
    run_with(alloc, plan, gateway, out, ins, desk)
}

/// The same with common PLPs: an input for each PLP that is not common; of each frame it goes group by group, slot by
/// slot and input by input. A packet that all inputs of a group have in a slot goes once, in the common PLP of the
/// group.
pub fn run_joined<D: Desk>(
    alloc: Global,
    plan: &Plan,
    out: &str,
    ins: &[Word],
    desk: &mut D,
) -> Result<GatewayRan, RunStop<GatewayStop>>
    requires count { length ins.now ≡ input_count Joint plan.now }
    requires apart { AreApart out.now ins.now }
    ensures ends { Ends (gateway_work Joint plan.now) (D.state desk.old) (D.state desk.new) (Into out.now) ins.now
        result }
{
    let gateway = SplitGateway::open(alloc, plan)?;
    run_with(alloc, plan, gateway, out, ins, desk)
}
