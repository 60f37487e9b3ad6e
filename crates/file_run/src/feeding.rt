// Reading what a machine wants.
ghost use Rattle.std.specs.Prelude.{◌≡◌, ◌<◌, ◌≤◌, ◌+◌, ℕ, length, false, IfErr, OnOk, OnErr};
ghost use Rattle.ports.specs.Desk.{SameCounts, has_run_out};
ghost use Rattle.file_run.specs.Reading.{given_of, spare, longest_file, ReadsOn, TakesNone, StopsReading};
ghost use Rattle.file_run.specs.Running.{Feeds, IsReader};

use crate::ahead::{ReadAhead, ReadStop};
use crate::input::MOST_WANTED;
use crate::machine::{Machine, Step};
use ports::Desk;

// Before it waits for an input people hear what the machine met so far.
fn note_before_read<M: Machine, D: Desk>(
    machine: &M,
    reader: &ReadAhead,
    least: usize,
    desk: &mut D,
)
    ensures { D.state desk.new ≡ D.state desk.old }
{
    if reader.as_bytes().len() < least {
        machine.note(desk);
    }
}

/// Reads what a machine wants of an input, and feeds it, or ends the input where its file ends. If it has to wait for
/// it, the machine notes before what it met.
pub fn feed<M: Machine, D: Desk>(
    machine: &mut M,
    reader: &mut ReadAhead,
    input: usize,
    least: usize,
    most: u64,
    desk: &mut D,
) -> Result<(), ReadStop>
    requires next { M.next machine.old ≡ Step.Read input least most }
    requires within { (least ≤ most) × (least ≤ MOST_WANTED) × (0 < least) }
    requires opened { reader.old.handle < length (D.state desk.old).opened }
    requires going { has_run_out (D.state desk.old) reader.old.handle ≡ false }
    requires short { given_of reader.old < longest_file }
    requires reader { IsReader M.Becomes machine.old input reader.old }
    requires is_open { reader.old.ended ≡ false }
    ensures reads { ReadsOn (D.state desk.old) (D.state desk.new) reader.old reader.new }
    ensures none { OnErr result (TakesNone (D.state desk.old) (D.state desk.new) reader.old reader.new) }
    ensures machine { OnErr result (machine.new ≡ machine.old) }
    ensures feeds { OnOk result
        (Feeds M.Becomes machine.old machine.new (D.state desk.old) (D.state desk.new) reader.old reader.new input) }
    ensures limit { (limit : ℕ) → given_of reader.old ≤ limit → reader.old.taken + most ≤ limit
        → given_of reader.new ≤ limit }
    ensures fewer { OnOk result (spare reader.new < spare reader.old) }
    ensures reach { (other : ℕ) → M.reach machine.old other ≤ M.reach machine.new other }
    ensures counts { OnOk result (SameCounts (D.state desk.old) (D.state desk.new)) }
    ensures short { OnOk result (given_of reader.new < longest_file) }
    ensures goes_on { OnErr result (has_run_out (D.state desk.new) reader.old.handle ≡ false) }
    ensures err { IfErr result (StopsReading (D.state desk.old) (D.state desk.new) reader.new least) }
{
    note_before_read(machine, reader, least, desk);
    if reader.read_until(desk, least, most)? {
        let count = machine.feed(input, reader.as_bytes());
        reader.skip(count);
    } else {
        let count = reader.as_bytes().len();
        machine.end_input(input, reader.as_bytes());
        reader.skip(count);
        reader.finish();
    }
    Ok(())
}
