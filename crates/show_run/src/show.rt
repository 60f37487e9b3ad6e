// The commands that show a file by lines.
ghost use Rattle.std.specs.Prelude.{◌≡◌, ◌-◌, [], length, OnOk, IfErr};
ghost use Rattle.file_run.specs.Telling.{TellsAll};
ghost use Rattle.site_frame.specs.FeedStandsFor.{coming_of, count_of};
ghost use Rattle.show_run.specs.FrameLines.{records_end};
ghost use Rattle.show_run.specs.PacketLines.{packets_end};
ghost use Rattle.show_run.specs.PacketText.{IsPacketText};
ghost use Rattle.show_run.specs.RecordText.{IsRecordText};
ghost use Rattle.show_run.specs.Shows.{Shows};
ghost use Rattle.show_run.specs.T2miText.{IsT2miText};
ghost use Rattle.show_run.specs.LinesStop.{StopsLines};

use crate::frame_lines::FrameLines;
use crate::packet_lines::{PacketLines, Phase};
use crate::stop::ShowStop;
use crate::t2mi_lines::T2miLines;
use file_run::{Machine, OutBuffer, ReadAhead, RunStop, tell};
use ports::Desk;
use site_frame::{Coming, reading_law, refusal_law, stands_law};
use std::alloc::Global;
use t2mi_packet::{no_refusal_law, one_packet_law, packet_length_law};
use t2mi_stream::{accepted_front_law, first_pid_law};

// Tells the lines of a machine that is fed with a named file.
fn tell_lines<M: Machine, D: Desk>(
    alloc: Global,
    machine: &mut M,
    name: &str,
    desk: &mut D,
) -> Result<(), RunStop<ShowStop>>
    requires inputs { M.inputs machine.old ≡ 1 }
    requires start { M.Becomes machine.old [] machine.old }
    ensures ok { OnOk result
        (TellsAll (M.Becomes machine.old) M.next (D.state desk.old) (D.state desk.new) name.now machine.new) }
    ensures err { IfErr result
        (StopsLines (M.Becomes machine.old) M.next (D.state desk.old) (D.state desk.new) name.now machine.new) }
{
    let Ok(mut reader) = ReadAhead::open(alloc) else {
        return Err(RunStop::OutOfMemory);
    };
    let Ok(mut page) = OutBuffer::open(alloc) else {
        return Err(RunStop::OutOfMemory);
    };
    tell(machine, &mut reader, &mut page, name, desk)?;
    Ok(())
}

// How the packets of a file ended: their number, or the place at which none begins.
fn packets_end(lines: &PacketLines) -> Result<u64, RunStop<ShowStop>>
    ensures { result ≡ packets_end lines.now.phase (lines.now.at - length lines.now.bytes.items) lines.now.count }
{
    match lines.phase {
        Phase::Refused(why) => Err(RunStop::Refused(ShowStop::PacketRefused {
            at: lines.place(),
            why,
        })),
        Phase::Reads | Phase::Finished => Ok(lines.count),
    }
}

/// Says a line for each T2-MI packet of a named file in which they stand back to back, and last their number: how many.
pub fn show_packets<D: Desk>(
    alloc: Global,
    name: &str,
    desk: &mut D,
) -> Result<u64, RunStop<ShowStop>>
    ensures { Shows IsPacketText (D.state desk.old) (D.state desk.new) name.now result }
{
    one_packet_law();
    no_refusal_law();
    packet_length_law();
    let Ok(mut lines) = PacketLines::open(alloc) else {
        return Err(RunStop::OutOfMemory);
    };
    tell_lines(alloc, &mut lines, name, desk)?;
    packets_end(&lines)
}

/// Says a line for each T2-MI packet in the transport packets of a named file, on the PID of the first that tells one,
/// and last their number: how many.
pub fn show_t2mi<D: Desk>(alloc: Global, name: &str, desk: &mut D) -> Result<u64, RunStop<ShowStop>>
    ensures { Shows IsT2miText (D.state desk.old) (D.state desk.new) name.now result }
{
    accepted_front_law();
    first_pid_law();
    let Ok(mut lines) = T2miLines::open(alloc) else {
        return Err(RunStop::OutOfMemory);
    };
    let told = tell_lines(alloc, &mut lines, name, desk);
    let count = lines.count();
    told?;
    Ok(count)
}

// How the records of a file ended: their number, or why one is none or has no memory.
fn records_end(lines: &FrameLines) -> Result<u64, RunStop<ShowStop>>
    ensures { result ≡ records_end (coming_of lines.now.feed) (count_of lines.now.feed) }
{
    match lines.feed.coming() {
        Coming::Refused(why) => Err(RunStop::Refused(ShowStop::RecordRefused {
            number: lines.feed.count(),
            why,
        })),
        Coming::NoRoom => Err(RunStop::Refused(ShowStop::NoRoom)),
        Coming::Head | Coming::Rest | Coming::Whole | Coming::Finished => Ok(lines.feed.count()),
    }
}

/// Says a line for each record of a named file, and last their number: how many.
pub fn show_frames<D: Desk>(
    alloc: Global,
    name: &str,
    desk: &mut D,
) -> Result<u64, RunStop<ShowStop>>
    ensures { Shows IsRecordText (D.state desk.old) (D.state desk.new) name.now result }
{
    reading_law();
    refusal_law();
    stands_law();
    let mut lines = FrameLines::new(alloc);
    tell_lines(alloc, &mut lines, name, desk)?;
    records_end(&lines)
}
