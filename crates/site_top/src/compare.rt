// `compare CONFIG A B`.
ghost use Rattle.site_top.specs.CompareCommand.{DamageIsAlike, Compares};

use crate::config_commands::outcome_of as refused;
use crate::outcome::Outcome;
use crate::run_end::outcome_of;
use compare_run::none_differs_law;
use file_run::read_plan;
use plp_config::Plan;
use ports::Desk;
use std::alloc::Global;
use stream_laws::type_law;

// What holds of two streams that are received of one run of the network of the plan. It does nothing.
fn alike_law(plan: &Plan)
    ensures { DamageIsAlike plan.now }
{
    plan.rules_law();
    type_law(plan);
    none_differs_law();
}

/// Compares two T2-MI streams of a network, by the named configuration: says what both make of each frame, and how many
/// frames there are.
pub fn compare<D: Desk>(alloc: Global, config: &str, a: &str, b: &str, desk: &mut D) -> Outcome
    ensures { Compares (D.state desk.old) (D.state desk.new) config.now a.now b.now result }
{
    let plan = match read_plan(alloc, config, desk) {
        Ok(plan) => plan,
        Err(stop) => return refused(stop),
    };
    alike_law(&plan);
    outcome_of(compare_run::run(alloc, &plan, a, b, desk))
}
