// A run that makes one stream of several files.
ghost use Rattle.std.specs.Prelude.{length};
ghost use Rattle.file_run.specs.FileRun.{AreApart};
ghost use Rattle.file_run.specs.Work.{Ends, Into};
ghost use Rattle.mend_run.specs.MendRun.{mend_work};

use crate::machine::MendMachine;
use crate::stop::{MendRan, MendStop};
use file_run::{Output, RunStop, run_one};
use plp_config::Plan;
use ports::{Desk, Word};
use std::alloc::Global;
use t2mi_stream::unit_reads_law;

/// Makes one stream of what several inputs have of a network: opens the inputs, of which two may be one file, creates
/// the output, and writes the units of each frame as soon as it is made, before it reads on. It reads an input until it
/// is known what is next in it, and 65,536 bytes ahead at most. All memory is taken before the first input is opened.
///
/// # Errors
/// [`MendStop::NoFrame`] if the inputs were read to their ends and no frame is made of them; `Files` if a file could
/// not be opened, read or written, or is too long; `OutOfMemory`, and then no input was opened.
pub fn run<D: Desk>(
    alloc: Global,
    plan: &Plan,
    ins: &[Word],
    out: &str,
    desk: &mut D,
) -> Result<MendRan, RunStop<MendStop>>
    requires apart { AreApart out.now ins.now }
    ensures ends { Ends (mend_work plan.now (length ins.now)) (D.state desk.old) (D.state desk.new) (Into out.now)
        ins.now result }
{
    unit_reads_law();
    let mut machine = MendMachine::open(alloc, plan, ins.len())?;
    run_one(alloc, &mut machine, Output::File(out), ins, desk)
}
