// `merge CONFIG A B OUT`.
ghost use Rattle.std.specs.Prelude.{◌≡◌, true};
ghost use Rattle.site_top.specs.Commands.{is_input};
ghost use Rattle.site_top.specs.MergeCommand.{UnitsAreMerged, Merges};

use crate::config_commands::outcome_of;
use crate::outcome::Outcome;
use crate::run_end::tell_run;
use feed_merge::picks_law;
use file_run::read_plan;
use network_laws::merge_law;
use plp_config::Plan;
use ports::Desk;
use std::alloc::Global;
use stream_laws::{again_law, type_law};

// What holds of two streams of the network of the plan, merged. It does nothing.
fn merged_law(plan: &Plan)
    ensures { UnitsAreMerged plan.now }
{
    plan.rules_law();
    type_law(plan);
    merge_law();
    picks_law();
    again_law();
}

/// Makes one T2-MI stream of two of a network, by the named configuration: each frame from the first of them that has
/// it. Says how many frames there are, how many of them from either, and how many units.
pub fn merge<D: Desk>(
    alloc: Global,
    config: &str,
    a: &str,
    b: &str,
    out: &str,
    desk: &mut D,
) -> Outcome
    requires apart_a { is_input out.now a.now ≡ true }
    requires apart_b { is_input out.now b.now ≡ true }
    ensures { Merges (D.state desk.old) (D.state desk.new) config.now a.now b.now out.now result }
{
    let plan = match read_plan(alloc, config, desk) {
        Ok(plan) => plan,
        Err(stop) => return outcome_of(stop),
    };
    merged_law(&plan);
    let end = merge_run::run(alloc, &plan, a, b, out, desk);
    tell_run(desk, end)
}
