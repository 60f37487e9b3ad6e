// A run of the modulator of a plan.
ghost use Rattle.std.specs.Prelude.{◌≢◌, [], ◌∷◌};
ghost use Rattle.file_run.specs.Work.{Ends, Into};
ghost use Rattle.modulate_run.specs.ModulateRun.{modulate_work};

use crate::machine::ModulatorMachine;
use crate::stop::{ModulateRan, ModulateStop};
use file_run::{Output, RunStop, run_work_over};
use plp_config::Plan;
use ports::Desk;
use std::alloc::Global;

/// Runs the modulator of a plan: opens the input, creates the output, and writes each record as soon as it is due,
/// before it reads on. It reads 65,536 bytes ahead at most. All memory is taken before the input is opened.
pub fn run<D: Desk>(
    alloc: Global,
    plan: &Plan,
    input: &str,
    out: &str,
    desk: &mut D,
) -> Result<ModulateRan, RunStop<ModulateStop>>
    requires apart { input.now ≢ out.now }
    ensures ends { Ends (modulate_work plan.now) (D.state desk.old) (D.state desk.new) (Into out.now)
        (input.now ∷ []) result }
{
    let mut machine = ModulatorMachine::open(alloc, plan)?;
    run_work_over(alloc, &mut machine, input, Output::File(out), desk)
}
