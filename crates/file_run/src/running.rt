// The driver of a machine over files: some are read, and one is written or standard output said.
ghost use Rattle.std.specs.Prelude.{◌≡◌, [], length, IfErr, OnOk};
ghost use Rattle.file_run.specs.FileRun.{RunsAll, Stops};
ghost use Rattle.file_run.specs.Running.{read_fault};
ghost use Rattle.file_run.specs.Sink.{AreOthers, sink_of};

use crate::ahead::{ReadAhead, ReadStop};
use crate::desk_laws::creates_law;
use crate::draining::drain;
use crate::feeding::feed;
use crate::machine::{Machine, Step};
use crate::opening::{begin_output, open_files};
use crate::out_buffer::OutBuffer;
use crate::output::Output;
use crate::stop::RunFault;
use ports::{Desk, Word};

/// How a run stops if an input could not be read on.
pub fn fault_of(input: usize, why: ReadStop) -> RunFault
    ensures { result ≡ read_fault input why }
{
    match why {
        ReadStop::TooLong => RunFault::TooLong { input },
        ReadStop::Fault => RunFault::ReadFault { input },
    }
}

/// Runs a machine over files: opens the inputs in turn, one for each reader; creates the output, if it is a file; and
/// reads what the machine wants and puts out what it gives until it has come to its end. What it gives goes out before
/// it is fed on. It takes no memory.
pub fn run<M: Machine, D: Desk>(
    machine: &mut M,
    readers: &mut [ReadAhead],
    buffer: &mut OutBuffer,
    output: Output<'_>,
    ins: &[Word],
    desk: &mut D,
) -> Result<(), RunFault>
    requires count { length readers.old ≡ length ins.now }
    requires inputs { M.inputs machine.old ≡ length ins.now }
    requires start { M.Becomes machine.old [] machine.old }
    requires apart { AreOthers (sink_of output) ins.now }
    ensures ok { OnOk result
        (RunsAll (D.state desk.old) (D.state desk.new) (sink_of output.entry) ins.now (M.reach machine.new)
        (λ events. M.Becomes machine.old events machine.new)) }
    ensures end { OnOk result (M.next machine.new ≡ Step.End) }
    ensures err { IfErr result
        (Stops (D.state desk.old) (D.state desk.new) (sink_of output.entry) ins.now M.reach M.next
        (M.Becomes machine.old) machine.new) }
{
    creates_law();
    open_files(ins, readers, desk)?;
    let out = begin_output(output, desk)?;
    buffer.clear();
    match drain(machine, buffer, out, desk) {
        Ok(()) => {}
        Err(_) => return Err(RunFault::WriteFault),
    }
    while let Step::Read { input, least, most } = machine.step() {
        match feed(machine, &mut readers[input], input, least, most, desk) {
            Ok(()) => {}
            Err(why) => return Err(fault_of(input, why)),
        }
        match drain(machine, buffer, out, desk) {
            Ok(()) => {}
            Err(_) => return Err(RunFault::WriteFault),
        }
    }
    Ok(())
}
