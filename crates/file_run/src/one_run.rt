// One run of a machine, with the memory that it needs.
ghost use Rattle.std.specs.Prelude.{◌≡◌, [], ◌∷◌, length, IfOk};
ghost use Rattle.file_run.specs.OneRun.{RunsOnce};
ghost use Rattle.file_run.specs.Sink.{AreOthers, IsOther, sink_of};
ghost use Rattle.file_run.specs.Work.{Ends};

use crate::ahead::ReadAhead;
use crate::machine::{Ending, Working};
use crate::out_buffer::OutBuffer;
use crate::output::Output;
use crate::running::run;
use crate::stop::RunStop;
use bit_slice::OutOfMemory;
use ports::{Desk, Word};
use std::alloc::Global;

/// So many readers, of nothing yet.
pub fn open_readers(alloc: Global, count: usize) -> Result<Vec<ReadAhead>, OutOfMemory>
    ensures { IfOk result (λ readers. length readers.items ≡ count) }
{
    let mut readers = Vec::new(alloc);
    for _ in 0..count {
        readers.push(ReadAhead::open(alloc)?)?;
    }
    Ok(readers)
}

/// Runs a machine over files as `run` does, and tells what came of it; behind the end it notes what it met. All memory
/// is taken before the first input is opened.
pub fn run_one<M: Ending, D: Desk>(
    alloc: Global,
    machine: &mut M,
    output: Output<'_>,
    ins: &[Word],
    desk: &mut D,
) -> Result<M::Ran, RunStop<M::Stop>>
    requires inputs { M.inputs machine.old ≡ length ins.now }
    requires start { M.Becomes machine.old [] machine.old }
    requires apart { AreOthers (sink_of output) ins.now }
    ensures { RunsOnce (D.state desk.old) (D.state desk.new) (sink_of output.entry) ins.now M.reach M.next
        (M.Becomes machine.old) M.ending
        machine.new result }
{
    let mut readers = open_readers(alloc, ins.len())?;
    let mut buffer = OutBuffer::open(alloc)?;
    let ran = run(machine, &mut readers, &mut buffer, output, ins, desk);
    machine.note(desk);
    ran?;
    match machine.ending() {
        Ok(ran) => Ok(ran),
        Err(why) => Err(RunStop::Refused(why)),
    }
}

/// The same for a machine of one input, which is named.
pub fn run_over<M: Ending, D: Desk>(
    alloc: Global,
    machine: &mut M,
    input: &str,
    output: Output<'_>,
    desk: &mut D,
) -> Result<M::Ran, RunStop<M::Stop>>
    requires inputs { M.inputs machine.old ≡ 1 }
    requires start { M.Becomes machine.old [] machine.old }
    requires apart { IsOther (sink_of output) input.now }
    ensures { RunsOnce (D.state desk.old) (D.state desk.new) (sink_of output.entry) (input.now ∷ [])
        M.reach M.next (M.Becomes machine.old) M.ending
        machine.new result }
{
    let ins = [Word::new(alloc, input)?];
    run_one(alloc, machine, output, &ins, desk)
}

/// The same for a machine of two inputs, which are named.
pub fn run_over_two<M: Ending, D: Desk>(
    alloc: Global,
    machine: &mut M,
    first: &str,
    second: &str,
    output: Output<'_>,
    desk: &mut D,
) -> Result<M::Ran, RunStop<M::Stop>>
    requires inputs { M.inputs machine.old ≡ 2 }
    requires start { M.Becomes machine.old [] machine.old }
    requires apart_first { IsOther (sink_of output) first.now }
    requires apart_second { IsOther (sink_of output) second.now }
    ensures { RunsOnce (D.state desk.old) (D.state desk.new) (sink_of output.entry) (first.now ∷ second.now ∷ [])
        M.reach M.next
        (M.Becomes machine.old) M.ending machine.new result }
{
    let ins = [Word::new(alloc, first)?, Word::new(alloc, second)?];
    run_one(alloc, machine, output, &ins, desk)
}

/// Runs a machine of one input, which is named, and does its work.
pub fn run_work_over<M: Working, D: Desk>(
    alloc: Global,
    machine: &mut M,
    input: &str,
    output: Output<'_>,
    desk: &mut D,
) -> Result<M::Ran, RunStop<M::Stop>>
    requires inputs { M.inputs machine.old ≡ 1 }
    requires start { M.Becomes machine.old [] machine.old }
    requires apart { IsOther (sink_of output) input.now }
    ensures { Ends (M.work machine.old) (D.state desk.old) (D.state desk.new) (sink_of output.entry)
        (input.now ∷ []) result }
{
    machine.work_law();
    run_over(alloc, machine, input, output, desk)
}
