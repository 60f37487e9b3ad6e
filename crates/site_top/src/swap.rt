// `swap CONFIG PLP T2MI IN OUT`.
ghost use Rattle.std.specs.Prelude.{◌≡◌, true};
ghost use Rattle.site_top.specs.Commands.{is_input};
ghost use Rattle.site_top.specs.SwapCommand.{UnitsAreSwapped, Swaps};

use crate::config_commands::outcome_of;
use crate::outcome::Outcome;
use crate::run_end::tell_run;
use file_run::read_plan;
use network_laws::{back_law, region_law, whole_region_law};
use plp_config::Plan;
use ports::Desk;
use std::alloc::Global;
use stream_laws::type_law;

// What holds of a stream of the network of the plan, with a PLP replaced. It does nothing.
fn swapped_law(plan: &Plan)
    ensures { UnitsAreSwapped plan.now }
{
    plan.rules_law();
    type_law(plan);
    region_law();
    back_law();
    whole_region_law();
}

/// Sends a T2-MI stream of the network of the named configuration again, with the packets of the PLP with an identifier
/// replaced by those of another transport stream, each in its slot. Says how many frames were sent, how many were muted
/// and are not, how many packets were not sent, and how many units were written.
pub fn swap<D: Desk>(
    alloc: Global,
    config: &str,
    id: u8,
    t2mi: &str,
    input: &str,
    out: &str,
    desk: &mut D,
) -> Outcome
    requires apart_t2mi { is_input out.now t2mi.now ≡ true }
    requires apart_input { is_input out.now input.now ≡ true }
    ensures { Swaps (D.state desk.old) (D.state desk.new) config.now id t2mi.now input.now out.now result }
{
    let plan = match read_plan(alloc, config, desk) {
        Ok(plan) => plan,
        Err(stop) => return outcome_of(stop),
    };
    let Some(plp) = plan.place_of(id) else {
        return Outcome::UnknownPlp { plp_id: id };
    };
    swapped_law(&plan);
    let end = swap_run::run(alloc, &plan, plp, t2mi, input, out, desk);
    tell_run(desk, end)
}
