// A run of the merger of a plan.
ghost use Rattle.std.specs.Prelude.{◌≢◌};
ghost use Rattle.file_run.specs.Work.{Ends, Into};
ghost use Rattle.feed_merge.specs.Fed.{names_of};
ghost use Rattle.merge_run.specs.MergeRun.{merge_work};

use crate::machine::MergeMachine;
use crate::stop::{MergeRan, MergeStop};
use file_run::{Output, RunStop, run_over_two};
use modulator::due_records_law;
use plp_config::Plan;
use ports::{Desk, Word};
use std::alloc::Global;
use t2mi_stream::complete_law;

/// Runs the merger of a plan: opens both inputs, which may be one file, creates the output, and writes the units of
/// each frame as soon as both feeds have told of it, before it reads on. It reads 65,536 bytes of each ahead at most.
/// All memory is taken before the first input is opened.
pub fn run<D: Desk>(
    alloc: Global,
    plan: &Plan,
    a: &str,
    b: &str,
    out: &str,
    desk: &mut D,
) -> Result<MergeRan, RunStop<MergeStop>>
    requires apart_a { a.now ≢ out.now }
    requires apart_b { b.now ≢ out.now }
    ensures ends { Ends (merge_work plan.now) (D.state desk.old) (D.state desk.new) (Into out.now)
        (names_of a.now b.now) result }
{
    due_records_law();
    complete_law();
    let mut machine = MergeMachine::open(alloc, plan)?;
    run_over_two(alloc, &mut machine, a, b, Output::File(out), desk)
}
