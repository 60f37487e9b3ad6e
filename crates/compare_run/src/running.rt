// A comparison of two files by a plan.
ghost use Rattle.std.specs.Prelude.{[], ◌∷◌};
ghost use Rattle.file_run.specs.Work.{Ends, Aloud};
ghost use Rattle.compare_run.specs.CompareRun.{compare_work};

use crate::counts::CompareRan;
use crate::machine::CompareMachine;
use crate::stop::CompareStop;
use file_run::{Output, RunStop, run_over_two};
use modulator::due_records_law;
use plp_config::Plan;
use ports::Desk;
use std::alloc::Global;

/// Compares two inputs, which may be one file, by a plan, and says each line as soon as it is known, before it reads
/// on: a line for each run of frames with one answer, and one for each frame that both send and that is not the same,
/// with one for each of its PLPs that differ; and then the numbers. It reads 65,536 bytes of each ahead at most. All
/// memory is taken before the first input is opened.
pub fn run<D: Desk>(
    alloc: Global,
    plan: &Plan,
    a: &str,
    b: &str,
    desk: &mut D,
) -> Result<CompareRan, RunStop<CompareStop>>
    ensures ends { Ends (compare_work plan.now) (D.state desk.old) (D.state desk.new) Aloud (a.now ∷ b.now ∷ [])
        result }
{
    due_records_law();
    let mut machine = CompareMachine::open(alloc, plan)?;
    run_over_two(alloc, &mut machine, a, b, Output::Standard, desk)
}
