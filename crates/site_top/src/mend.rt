// `mend CONFIG OUT IN..`.
ghost use Rattle.std.specs.Prelude.{◌≡◌, true};
ghost use Rattle.site_top.specs.Commands.{are_inputs};
ghost use Rattle.site_top.specs.MendCommand.{UnitsAreMended, Mends};

use crate::config_commands::outcome_of;
use crate::outcome::Outcome;
use crate::run_end::tell_run;
use file_run::read_plan;
use mended_frames::{near_law, pass_law, rise_law};
use network_laws::{feeds_law, mend_law};
use plp_config::Plan;
use ports::{Desk, Word};
use std::alloc::Global;
use stream_laws::type_law;

// What holds of streams of the network of the plan, mended. It does nothing.
fn mended_law(plan: &Plan)
    ensures { UnitsAreMended plan.now }
{
    plan.rules_law();
    type_law(plan);
    pass_law();
    rise_law();
    near_law();
    mend_law();
    feeds_law();
}

/// Makes one T2-MI stream of one or more of a network, by the named configuration: each frame of which they have every
/// packet together, at the instant that its timestamp tells. Says how many frames there are, how many of them no stream
/// had whole, how many between them are not, and how many units.
pub fn mend<D: Desk>(alloc: Global, config: &str, out: &str, ins: &[Word], desk: &mut D) -> Outcome
    requires { are_inputs out.now ins.now ≡ true }
    ensures { Mends (D.state desk.old) (D.state desk.new) config.now out.now ins.now result }
{
    let plan = match read_plan(alloc, config, desk) {
        Ok(plan) => plan,
        Err(stop) => return outcome_of(stop),
    };
    mended_law(&plan);
    let end = mend_run::run(alloc, &plan, ins, out, desk);
    tell_run(desk, end)
}
