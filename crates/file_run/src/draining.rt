// Putting out what a machine gives.
ghost use Rattle.std.specs.Prelude.{◌≡◌, ◌≢◌, ◌≤◌, ◌+◌, ℕ, [], length, OnOk, OnErr};
ghost use Rattle.ports.specs.Counts.{MayFailWriting};
ghost use Rattle.file_run.specs.Running.{Drains, DrainsFront, PutsSome};
ghost use Rattle.file_run.specs.Sink.{IsOpen, Puts, PutsFront};
ghost use Rattle.file_run.specs.Steps.{HasCome};
ghost use Rattle.file_run.specs.declared.machine.TheConstants.{PIECE};
ghost use Rattle.file_run.specs.declared.page.TheConstants.{PAGE};

use crate::desk_laws::appends_law;
use crate::machine::{Machine, Step};
use crate::out_buffer::OutBuffer;
use crate::output::OpenOutput;
use ports::{Desk, DeskFault};

// Puts out all that waits.
fn flush<D: Desk>(desk: &mut D, out: OpenOutput, buffer: &mut OutBuffer) -> Result<(), DeskFault>
    requires { IsOpen out (D.state desk.old) }
    ensures ok { OnOk result (Puts out (D.state desk.old) (D.state desk.new) buffer.old) }
    ensures nothing { OnOk result (buffer.new ≡ []) }
    ensures err { OnErr result (PutsFront out (D.state desk.old) (D.state desk.new) buffer.old) }
    ensures counts { MayFailWriting (D.state desk.old).counts (D.state desk.new).counts result }
{
    out.put(desk, buffer.as_bytes())?;
    buffer.clear();
    Ok(())
}

// Makes room for a piece: if there is none, all that waits is put out.
fn make_room<D: Desk>(
    desk: &mut D,
    out: OpenOutput,
    buffer: &mut OutBuffer,
) -> Result<(), DeskFault>
    requires { IsOpen out (D.state desk.old) }
    ensures ok { OnOk result (PutsSome out (D.state desk.old) (D.state desk.new) buffer.old buffer.new) }
    ensures room { OnOk result (length buffer.new + PIECE ≤ PAGE) }
    ensures err { OnErr result (PutsFront out (D.state desk.old) (D.state desk.new) buffer.old) }
    ensures counts { MayFailWriting (D.state desk.old).counts (D.state desk.new).counts result }
{
    appends_law();
    if buffer.has_room() {
        return Ok(());
    }
    flush(desk, out, buffer)
}

/// Puts out all that a machine gives before it wants bytes, by way of this buffer.
pub fn drain<M: Machine, D: Desk>(
    machine: &mut M,
    buffer: &mut OutBuffer,
    out: OpenOutput,
    desk: &mut D,
) -> Result<(), DeskFault>
    requires open { IsOpen out (D.state desk.old) }
    requires nothing { buffer.old ≡ [] }
    requires came { HasCome M.Becomes machine.old }
    ensures ok { OnOk result (Drains M.Becomes out machine.old machine.new (D.state desk.old) (D.state desk.new) []) }
    ensures nothing { OnOk result (buffer.new ≡ []) }
    ensures dry { OnOk result (M.next machine.new ≢ Step.Give) }
    ensures err { OnErr result (DrainsFront M.Becomes out machine.old machine.new (D.state desk.old)
        (D.state desk.new)) }
    ensures gives { OnErr result (M.next machine.old ≡ Step.Give) }
    ensures reach { (other : ℕ) → M.reach machine.old other ≤ M.reach machine.new other }
    ensures counts { MayFailWriting (D.state desk.old).counts (D.state desk.new).counts result }
{
    appends_law();
    while let Step::Give = machine.step() {
        make_room(desk, out, buffer)?;
        buffer.take_from(machine);
    }
    flush(desk, out, buffer)
}
