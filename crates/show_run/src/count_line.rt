// The line of a number of packets or records, and lines that are given.
ghost use Rattle.std.specs.Prelude.{◌≡◌, ◌≤◌, [], length, take};
ghost use Rattle.file_run.specs.declared.machine.TheConstants.{PIECE};
ghost use Rattle.show_run.specs.SaidLines.{count_line as line_of_count, records_line as line_of_records};

use file_run::{Line, ROOM};

/// The line of the number of packets.
pub fn count_line(count: u64) -> Line
    ensures text { result ≡ line_of_count count }
    ensures len { length result ≤ ROOM }
{
    let mut line = Line::new();
    line.push_field(b"packets=", count);
    line.push(b"\n");
    line
}

/// The line of the number of records.
pub fn records_line(count: u64) -> Line
    ensures text { result ≡ line_of_records count }
    ensures len { length result ≤ ROOM }
{
    let mut line = Line::new();
    line.push_field(b"records=", count);
    line.push(b"\n");
    line
}

/// Gives the line, which is empty then: how many bytes.
pub fn give_line(line: &mut Line, out: &mut [u8]) -> usize
    requires room { PIECE ≤ length out.old }
    ensures bytes { take result out.new ≡ line.old }
    ensures count { result ≤ length out.old }
    ensures given { line.new ≡ [] }
{
    let count = line.len();
    out[..count].copy_from_slice(line.as_bytes());
    line.clear();
    count
}
