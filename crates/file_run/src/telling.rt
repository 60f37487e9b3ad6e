// Saying what a machine gives.
ghost use Rattle.std.specs.Prelude.{◌≡◌, ◌≢◌, ◌≤◌, ◌+◌, ℕ, List, [], length, IfErr, OnOk, OnErr};
ghost use Rattle.ports.specs.Counts.{MayFailWriting};
ghost use Rattle.ports.specs.Desk.{State, Keeps};
ghost use Rattle.file_run.specs.Reading.{Reading};
ghost use Rattle.file_run.specs.Saying.{SaysPage};
ghost use Rattle.file_run.specs.Steps.{HasCome};
ghost use Rattle.file_run.specs.Telling.{TellsAll, StopsTelling};
ghost use Rattle.file_run.specs.TellingOn.{Telling, HasBegun, GivesWay, Finishes, Breaks, TellsLast};
ghost use Rattle.file_run.specs.declared.machine.TheConstants.{PIECE};
ghost use Rattle.file_run.specs.declared.page.TheConstants.{PAGE};

use crate::ahead::{ReadAhead, ReadStop};
use crate::feeding::feed;
use crate::machine::{Machine, Step};
use crate::out_buffer::OutBuffer;
use crate::output::say_all;
use crate::stop::RunFault;
use ports::{Desk, DeskFault};

// Says what waits on the page, by one call, or nothing if nothing waits.
fn say_page<D: Desk>(desk: &mut D, page: &mut OutBuffer) -> Result<(), DeskFault>
    ensures ok { OnOk result (SaysPage (D.state desk.old) (D.state desk.new) page.old) }
    ensures err { OnErr result (Keeps (D.state desk.old) (D.state desk.new)) }
    ensures page { page.new ≡ [] }
    ensures some { OnErr result (page.old ≢ []) }
    ensures counts { MayFailWriting (D.state desk.old).counts (D.state desk.new).counts result }
{
    let said = say_all(desk, page.as_bytes());
    page.clear();
    said
}

// Makes room for a piece: if there is none, all that waits is said.
fn make_room<D: Desk>(desk: &mut D, page: &mut OutBuffer) -> Result<(), DeskFault>
    ensures ok { OnOk result (GivesWay (D.state desk.old) (D.state desk.new) page.old page.new) }
    ensures room { OnOk result (length page.new + PIECE ≤ PAGE) }
    ensures err { OnErr result (Keeps (D.state desk.old) (D.state desk.new)) }
    ensures some { OnErr result (page.old ≢ []) }
    ensures counts { MayFailWriting (D.state desk.old).counts (D.state desk.new).counts result }
{
    if page.has_room() {
        return Ok(());
    }
    say_page(desk, page)
}

// Gathers all that a machine gives before it wants bytes.
fn gather<M: Machine, D: Desk>(
    machine: &mut M,
    page: &mut OutBuffer,
    desk: &mut D,
) -> Result<(), DeskFault>
    requires came { HasCome M.Becomes machine.old }
    ensures ok { OnOk result ((begin : M) (start : State) (name : List ℕ) (r : Reading)
        → Telling (M.Becomes begin) M.next start (D.state desk.old) name machine.old r page.old
        → Telling (M.Becomes begin) M.next start (D.state desk.new) name machine.new r page.new) }
    ensures err { OnErr result ((begin : M) (start : State) (name : List ℕ) (r : Reading)
        → Telling (M.Becomes begin) M.next start (D.state desk.old) name machine.old r page.old
        → (unsaid : List ℕ) × Telling (M.Becomes begin) M.next start (D.state desk.new) name machine.new r unsaid
        × (unsaid ≢ [])) }
    ensures dry { OnOk result (M.next machine.new ≢ Step.Give) }
    ensures counts { MayFailWriting (D.state desk.old).counts (D.state desk.new).counts result }
{
    while let Step::Give = machine.step() {
        make_room(desk, page)?;
        page.take_from(machine);
    }
    Ok(())
}

// Reads what a machine wants and gathers what it gives until it has come to its end. There is a run so far.
fn tell_on<M: Machine, D: Desk>(
    machine: &mut M,
    reader: &mut ReadAhead,
    page: &mut OutBuffer,
    desk: &mut D,
) -> Result<(), RunFault>
    requires begun { HasBegun M.Becomes M.next M.inputs (D.state desk.old) machine.old reader.old page.old }
    ensures ok { OnOk result ((begin : M) (start : State) (name : List ℕ)
        → Telling (M.Becomes begin) M.next start (D.state desk.old) name machine.old reader.old page.old
        → Telling (M.Becomes begin) M.next start (D.state desk.new) name machine.new reader.new page.new) }
    ensures end { OnOk result (Finishes M.next (D.state desk.old) (D.state desk.new) machine.new reader.new) }
    ensures err { IfErr result (λ why. (begin : M) (start : State) (name : List ℕ)
        → Telling (M.Becomes begin) M.next start (D.state desk.old) name machine.old reader.old page.old
        → (unsaid : List ℕ) × Telling (M.Becomes begin) M.next start (D.state desk.new) name machine.new
        reader.new unsaid
        × (why ≢ RunFault.WriteFault → unsaid ≡ page.new) × (why ≡ RunFault.WriteFault → unsaid ≢ [])) }
    ensures cause { IfErr result (Breaks M.next (D.state desk.old) (D.state desk.new) machine.new reader.new) }
{
    match gather(machine, page, desk) {
        Ok(()) => {}
        Err(_) => return Err(RunFault::WriteFault),
    }
    while let Step::Read { input, least, most } = machine.step() {
        match feed(machine, reader, input, least, most, desk) {
            Ok(()) => {}
            Err(ReadStop::TooLong) => return Err(RunFault::TooLong { input: 0 }),
            Err(ReadStop::Fault) => return Err(RunFault::ReadFault { input: 0 }),
        }
        match gather(machine, page, desk) {
            Ok(()) => {}
            Err(_) => return Err(RunFault::WriteFault),
        }
    }
    Ok(())
}

// Says what is left on the page. The first fault is the answer.
fn tell_last<D: Desk>(
    desk: &mut D,
    page: &mut OutBuffer,
    told: Result<(), RunFault>,
) -> Result<(), RunFault>
    ensures { TellsLast (D.state desk.old) (D.state desk.new) page.old told result }
{
    if let Err(RunFault::WriteFault) = told {
        return told;
    }
    match (say_page(desk, page), told) {
        (Ok(()), told) => told,
        (Err(_), Err(RunFault::ReadFault { input })) => Err(RunFault::ReadFault { input }),
        (Err(_), _) => Err(RunFault::WriteFault),
    }
}

/// Reads the named file for a machine of one input and says what the machine gives, some 128 KiB at a time, until it
/// has come to its end. The first fault is the answer; after one of reading what waits is said still. It takes no
/// memory.
pub fn tell<M: Machine, D: Desk>(
    machine: &mut M,
    reader: &mut ReadAhead,
    page: &mut OutBuffer,
    name: &str,
    desk: &mut D,
) -> Result<(), RunFault>
    requires inputs { M.inputs machine.old ≡ 1 }
    requires start { M.Becomes machine.old [] machine.old }
    requires nothing { page.old ≡ [] }
    ensures ok { OnOk result
        (TellsAll (M.Becomes machine.old) M.next (D.state desk.old) (D.state desk.new) name.now machine.new) }
    ensures err { IfErr result
        (StopsTelling (M.Becomes machine.old) M.next (D.state desk.old) (D.state desk.new) name.now machine.new) }
{
    let Ok(handle) = desk.open(name) else {
        return Err(RunFault::ReadFault { input: 0 });
    };
    reader.begin(handle);
    let told = tell_on(machine, reader, page, desk);
    tell_last(desk, page, told)
}
