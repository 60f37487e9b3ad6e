// A run of the receiver of a PLP.
ghost use Rattle.std.specs.Prelude.{◌≢◌, ◌<◌, [], ◌∷◌, length};
ghost use Rattle.common_plp.specs.Groups.{common_of};
ghost use Rattle.plp_receiver.specs.JoinedBack.{MayJoin};
ghost use Rattle.file_run.specs.Work.{Ends, Into};
ghost use Rattle.receive_run.specs.JoinedRun as joined;
ghost use Rattle.receive_run.specs.ReceiveRun.{receive_work};

use crate::machine::ReceiverMachine;
use crate::stop::{ReceiveRan, ReceiveStop};
use common_plp::common_of;
use file_run::{Output, RunStop, run_over};
use plp_config::Plan;
use ports::Desk;
use site_frame::{place_law, reading_law, refusal_law, stands_law};
use std::alloc::Global;

// Runs the receiver of a PLP, with which another is joined, or none.
fn run_with<D: Desk>(
    alloc: Global,
    plan: &Plan,
    plp: usize,
    joins: Option<usize>,
    input: &str,
    out: &str,
    desk: &mut D,
) -> Result<ReceiveRan, RunStop<ReceiveStop>>
    requires plp { plp < length plan.now.plps }
    requires may { MayJoin plan.now plp joins }
    requires apart { input.now ≢ out.now }
    ensures ends { Ends (joined.receive_work joins plan.now plp) (D.state desk.old) (D.state desk.new) (Into out.now)
        (input.now ∷ []) result }
{
    reading_law();
    refusal_law();
    place_law();
    stands_law();
    plan.rules_law();
    let mut machine = ReceiverMachine::open(alloc, plan, plp, joins)?;
    run_over(alloc, &mut machine, input, Output::File(out), desk)
}

/// Runs the receiver of the PLP at a place of a plan: opens the input, creates the output, and writes the packets of
/// all slots that are due behind a record before it reads the next one. It reads no further than the record under way,
/// and no further than a head with which no record begins. All memory is taken before the input is opened.
#[tactic(auto, using(crate::proofs::WorkLemmas::may_none))]
pub fn run<D: Desk>(
    alloc: Global,
    plan: &Plan,
    plp: usize,
    input: &str,
    out: &str,
    desk: &mut D,
) -> Result<ReceiveRan, RunStop<ReceiveStop>>
    requires plp { plp < length plan.now.plps }
    requires apart { input.now ≢ out.now }
    ensures ends { Ends (receive_work plan.now plp) (D.state desk.old) (D.state desk.new) (Into out.now)
        (input.now ∷ []) result }
{
    run_with(alloc, plan, plp, None, input, out, desk)
}

/// The same with the packets of the common PLP of its group, if it has one: in each slot where the PLP has a null
/// packet the packet of the common one.
#[tactic(auto, using(crate::proofs::WorkLemmas::may_common))]
pub fn run_joined<D: Desk>(
    alloc: Global,
    plan: &Plan,
    plp: usize,
    input: &str,
    out: &str,
    desk: &mut D,
) -> Result<ReceiveRan, RunStop<ReceiveStop>>
    requires plp { plp < length plan.now.plps }
    requires apart { input.now ≢ out.now }
    ensures ends { Ends (joined.receive_work (common_of plan.now plp) plan.now plp) (D.state desk.old)
        (D.state desk.new)
        (Into out.now) (input.now ∷ []) result }
{
    let joins = common_of(plan.config(), plp);
    run_with(alloc, plan, plp, joins, input, out, desk)
}
