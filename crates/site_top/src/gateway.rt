// `gateway CONFIG OUT IN..` and `common gateway CONFIG OUT IN..`.
ghost use Rattle.std.specs.Prelude.{◌≡◌, true};
ghost use Rattle.common_plp.specs.Sharing.{Apart, Joint};
ghost use Rattle.site_top.specs.Commands.{are_inputs};
ghost use Rattle.site_top.specs.GatewayCommand.{Gateways};

use crate::config_commands::outcome_of;
use crate::outcome::Outcome;
use crate::run_end::tell_run;
use common_plp::commons;
use file_run::read_plan;
use ports::{Desk, Word};
use std::alloc::Global;

/// Makes the T2-MI stream of a network, by the named configuration and one named transport stream for each PLP, and
/// says how many frames and units it has.
pub fn gateway<D: Desk>(
    alloc: Global,
    config: &str,
    out: &str,
    ins: &[Word],
    desk: &mut D,
) -> Outcome
    requires { are_inputs out.now ins.now ≡ true }
    ensures { Gateways Apart (D.state desk.old) (D.state desk.new) config.now out.now ins.now result }
{
    let plan = match read_plan(alloc, config, desk) {
        Ok(plan) => plan,
        Err(stop) => return outcome_of(stop),
    };
    let plps = plan.config().plps.len();
    if ins.len() != plps {
        return Outcome::WrongInputs {
            plps,
            inputs: ins.len(),
        };
    }
    let end = gateway_run::run(alloc, &plan, out, ins, desk);
    tell_run(desk, end)
}

/// The same with common PLPs: one named transport stream for each PLP that is not common. A packet that all inputs of a
/// group have in a slot goes once, in the common PLP of the group.
pub fn common_gateway<D: Desk>(
    alloc: Global,
    config: &str,
    out: &str,
    ins: &[Word],
    desk: &mut D,
) -> Outcome
    requires { are_inputs out.now ins.now ≡ true }
    ensures { Gateways Joint (D.state desk.old) (D.state desk.new) config.now out.now ins.now result }
{
    let plan = match read_plan(alloc, config, desk) {
        Ok(plan) => plan,
        Err(stop) => return outcome_of(stop),
    };
    let plps = plan
        .config()
        .plps
        .len()
        .saturating_sub(commons(plan.config()));
    if ins.len() != plps {
        return Outcome::WrongInputs {
            plps,
            inputs: ins.len(),
        };
    }
    let end = gateway_run::run_joined(alloc, &plan, out, ins, desk);
    tell_run(desk, end)
}
