// What is counted of a run, by its command.
use crate::config_place::plan_again;
use bit_slice::OutOfMemory;
use desk_watch::RunCounts;
use plp_config::Plan;
use site_top::{Outcome, Request};
use std::alloc::Global;
use std::fs::Files;
use std::io::{self, Eprint};

// The configuration of a command of which something is counted.
fn config_of(request: Request<'_>) -> Option<&str> {
    match request {
        Request::Gateway { config, .. }
        | Request::CommonGateway { config, .. }
        | Request::Modulate { config, .. }
        | Request::Receive { config, .. }
        | Request::CommonReceive { config, .. }
        | Request::Merge { config, .. }
        | Request::Mend { config, .. }
        | Request::Swap { config, .. }
        | Request::Compare { config, .. } => Some(config),
        _ => None,
    }
}

/// The plan of such a command, if its configuration can be read again.
pub fn plan_of(rt: &(impl Files + AllocGlobal), request: Option<Request<'_>>) -> Option<Plan> {
    plan_again(rt, config_of(request?)?)
}

fn open<'a>(
    alloc: Global,
    request: Request<'a>,
    plan: Option<&'a Plan>,
) -> Result<RunCounts<'a>, OutOfMemory> {
    match request {
        Request::Gateway { ins, .. } => RunCounts::of_gateway(alloc, plan, ins, false),
        Request::CommonGateway { ins, .. } => RunCounts::of_gateway(alloc, plan, ins, true),
        Request::Modulate { input, .. } => RunCounts::of_modulate(alloc, plan, input),
        Request::Receive { plp_id, input, .. } => RunCounts::of_receive(
            alloc, plan, plp_id, false, input,
        ),
        Request::CommonReceive { plp_id, input, .. } => RunCounts::of_receive(
            alloc, plan, plp_id, true, input,
        ),
        Request::Merge { a, b, .. } => RunCounts::of_merge(alloc, plan, a, b),
        Request::Mend { ins, .. } => RunCounts::of_mend(alloc, plan, ins),
        Request::Swap {
            plp_id,
            t2mi,
            input,
            ..
        } => RunCounts::of_swap(alloc, plan, plp_id, t2mi, input),
        Request::Compare { a, b, .. } => RunCounts::of_compare(alloc, plan, a, b),
        _ => Ok(RunCounts::none(alloc)),
    }
}

/// What is counted of a command. Nothing is, if there is no memory for it.
pub fn counts_of<'a>(
    alloc: Global,
    request: Option<Request<'a>>,
    plan: Option<&'a Plan>,
) -> RunCounts<'a> {
    let opened = match request {
        Some(request) => open(alloc, request, plan),
        None => Ok(RunCounts::none(alloc)),
    };
    match opened {
        Ok(counts) => counts,
        Err(_) => RunCounts::none(alloc),
    }
}

/// Says what was counted of a run that ended so.
pub fn say_counts(rt: &impl Eprint, counts: &RunCounts<'_>, outcome: Outcome) -> io::Result<()> {
    match outcome {
        Outcome::Done | Outcome::Differs { .. } => counts.say_done(rt),
        Outcome::NoSuperframe => counts.say_none(rt),
        _ => Ok(()),
    }
}
