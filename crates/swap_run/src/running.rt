// A run of the swapper of a plan.
ghost use Rattle.std.specs.Prelude.{◌≢◌, ◌<◌, length};
ghost use Rattle.file_run.specs.Work.{Ends, Into};
ghost use Rattle.feed_merge.specs.Fed.{names_of};
ghost use Rattle.swap_run.specs.SwapRun.{swap_work};

use crate::machine::SwapMachine;
use crate::stop::{SwapRan, SwapStop};
use file_run::{Output, RunStop, run_over_two};
use modulator::due_records_law;
use plp_config::{Plan, length_law, slot_time_law};
use ports::{Desk, Word};
use std::alloc::Global;
use t2mi_stream::complete_law;

/// Runs the swapper of a plan for the PLP at a place: opens the T2-MI stream and the transport stream that replaces it,
/// which may be one file, creates the output, and goes record by record through the stream; of the input it reads the
/// packets of the slots that are over when the frame of that record begins, and behind the last frame the rest, which
/// is tested and not sent. All units that are complete are written before it reads on. All memory is taken before the
/// first input is opened.
pub fn run<D: Desk>(
    alloc: Global,
    plan: &Plan,
    plp: usize,
    t2mi: &str,
    input: &str,
    out: &str,
    desk: &mut D,
) -> Result<SwapRan, RunStop<SwapStop>>
    requires place { plp < length plan.now.plps }
    requires apart_t2mi { t2mi.now ≢ out.now }
    requires apart_input { input.now ≢ out.now }
    ensures ends { Ends (swap_work plan.now plp) (D.state desk.old) (D.state desk.new) (Into out.now)
        (names_of t2mi.now input.now) result }
{
    due_records_law();
    complete_law();
    slot_time_law();
    length_law();
    let mut machine = SwapMachine::open(alloc, plan, plp)?;
    run_over_two(alloc, &mut machine, t2mi, input, Output::File(out), desk)
}
