// `modulate CONFIG IN OUT`.
ghost use Rattle.std.specs.Prelude.{◌≡◌, true};
ghost use Rattle.site_top.specs.Commands.{is_input};
ghost use Rattle.site_top.specs.ModulateCommand.{Modulates};

use crate::config_commands::outcome_of;
use crate::outcome::Outcome;
use crate::run_end::tell_run;
use file_run::read_plan;
use ports::Desk;
use std::alloc::Global;
use stream_laws::plan_law;

/// Makes the records of the frames of a network, by the named configuration, from its named T2-MI stream, and says the
/// number of the first frame, how many records there are, and how many of them are muted.
pub fn modulate<D: Desk>(
    alloc: Global,
    config: &str,
    input: &str,
    out: &str,
    desk: &mut D,
) -> Outcome
    requires { is_input out.now input.now ≡ true }
    ensures { Modulates (D.state desk.old) (D.state desk.new) config.now input.now out.now result }
{
    let plan = match read_plan(alloc, config, desk) {
        Ok(plan) => plan,
        Err(stop) => return outcome_of(stop),
    };
    plan_law(&plan);
    let end = modulate_run::run(alloc, &plan, input, out, desk);
    tell_run(desk, end)
}
