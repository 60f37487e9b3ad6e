// `receive CONFIG PLP IN OUT`.
ghost use Rattle.std.specs.Prelude.{◌≡◌, true};
ghost use Rattle.site_top.specs.Commands.{is_input};
ghost use Rattle.common_plp.specs.Sharing.{Apart};
ghost use Rattle.site_top.specs.ReceiveCommand.{ReceivedComesBack};
ghost use Rattle.site_top.specs.Reception.{Receives};

use crate::config_commands::outcome_of;
use crate::outcome::Outcome;
use crate::run_end::tell_run;
use file_run::read_plan;
use network_laws::{recover_law, whole_law};
use plp_config::{Plan, run_length_law};
use ports::Desk;
use record_laws::fit_law;
use site_frame::{place_law, reading_law, refusal_law, writing_law};
use std::alloc::Global;
use stream_laws::type_law;

/// What records of a run's frames give back of a PLP of the plan. It does nothing.
pub fn back_law(plan: &Plan)
    ensures { ReceivedComesBack plan.now }
{
    plan.rules_law();
    type_law(plan);
    reading_law();
    writing_law();
    refusal_law();
    place_law();
    fit_law();
    run_length_law();
    recover_law();
    whole_law();
}

/// Gives back the packets of the PLP with an identifier, by the named configuration, from the named records of a
/// network's frames, and says the slot at which they begin and how many there are.
pub fn receive<D: Desk>(
    alloc: Global,
    config: &str,
    id: u8,
    input: &str,
    out: &str,
    desk: &mut D,
) -> Outcome
    requires { is_input out.now input.now ≡ true }
    ensures { Receives Apart (D.state desk.old) (D.state desk.new) config.now id input.now out.now result }
{
    let plan = match read_plan(alloc, config, desk) {
        Ok(plan) => plan,
        Err(stop) => return outcome_of(stop),
    };
    let Some(plp) = plan.place_of(id) else {
        return Outcome::UnknownPlp { plp_id: id };
    };
    back_law(&plan);
    let end = receive_run::run(alloc, &plan, plp, input, out, desk);
    tell_run(desk, end)
}
