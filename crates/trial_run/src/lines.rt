// The lines of a trial.
ghost use Rattle.std.specs.Prelude.{◌≡◌, ◌+◌, ◌++◌, ◌≤◌, codes, length, IfOk, OnOk};
ghost use Rattle.trial_run.specs.Trial.{crc_word, stream_line as line_of_stream, records_part};
ghost use Rattle.trial_run.specs.Trial.{whole_line as line_of_whole};
ghost use Rattle.trial_run.specs.Trial.{lossy_line as line_of_lossy, plp_line as line_of_plp};
ghost use Rattle.file_run.specs.declared.line.TheConstants.{ROOM};

use crate::counts::filled_packets;
use crate::stages::{Modulated, Sent};
use bit_slice::{BitSlice, OutOfMemory, crc32};
use file_run::Line;
use modulate_run::ModulateRan;

// Digits of a number at most: those of 2^64 - 1.
const DIGITS: usize = 20;

// Bytes that the end of a line and the numbers of a modulator have at most.
const CRC_ROOM: usize = 22;

const RECORDS_ROOM: usize = 23 + 3 * DIGITS;

// More bytes than any memory has, of which no bits are counted.
const TOO_MANY: usize = 1 << 60;

// Ends a line with the CRC-32 of bytes.
fn push_crc(line: &mut Line, bytes: &[u8]) -> Result<(), OutOfMemory>
    requires { length line.old + CRC_ROOM ≤ ROOM }
    ensures text { OnOk result (line.new ≡ line.old ++ codes " crc=" ++ crc_word bytes.now ++ codes "\n") }
    ensures len { OnOk result (length line.new ≤ length line.old + CRC_ROOM) }
{
    if bytes.len() >= TOO_MANY {
        return Err(OutOfMemory);
    }
    line.push(b" crc=");
    line.push_hex(&crc32(BitSlice::whole(bytes)).to_be_bytes());
    line.push(b"\n");
    Ok(())
}

/// The line of the stream.
pub fn stream_line(sent: &Sent) -> Result<Line, OutOfMemory>
    ensures text { IfOk result (λ line. line ≡ line_of_stream sent.now.ran.frames sent.now.ran.units
        sent.now.stream.items) }
    ensures len { IfOk result (λ line. length line ≤ ROOM) }
{
    let mut line = Line::new();
    line.push_field(b"frames=", sent.ran.frames);
    line.push_field(b" units=", sent.ran.units);
    push_crc(&mut line, &sent.stream)?;
    Ok(line)
}

// The numbers of a modulator's records.
fn push_records(line: &mut Line, ran: &ModulateRan)
    requires { length line.old + RECORDS_ROOM ≤ ROOM }
    ensures text { line.new ≡ line.old ++ records_part ran.now }
    ensures len { length line.new ≤ length line.old + RECORDS_ROOM }
{
    line.push_field(b" first=", ran.first);
    line.push_field(b" records=", ran.records);
    line.push_field(b" muted=", ran.muted);
}

/// The line of the modulator that reads all units.
pub fn whole_line(made: &Modulated) -> Result<Line, OutOfMemory>
    ensures text { IfOk result (λ line. line ≡ line_of_whole made.now.ran made.now.records.items) }
    ensures len { IfOk result (λ line. length line ≤ ROOM) }
{
    let mut line = Line::new();
    line.push(b"a");
    push_records(&mut line, &made.ran);
    push_crc(&mut line, &made.records)?;
    Ok(line)
}

/// The line of the modulator that loses some.
pub fn lossy_line(made: &Modulated, same: u64) -> Result<Line, OutOfMemory>
    ensures text { IfOk result (λ line. line ≡ line_of_lossy made.now.ran same made.now.records.items) }
    ensures len { IfOk result (λ line. length line ≤ ROOM) }
{
    let mut line = Line::new();
    line.push(b"b");
    push_records(&mut line, &made.ran);
    line.push_field(b" same=", same);
    push_crc(&mut line, &made.records)?;
    Ok(line)
}

/// The line of a PLP, by its identifier, its input, and what its receivers give back.
pub fn plp_line(id: u8, input: &[u8], whole: &[u8], lossy: &[u8]) -> Result<Line, OutOfMemory>
    ensures text { IfOk result (λ line. line ≡ line_of_plp id input.now whole.now lossy.now) }
    ensures len { IfOk result (λ line. length line ≤ ROOM) }
{
    let mut line = Line::new();
    line.push_field(b"plp=", u64::from(id));
    line.push_field(b" packets=", filled_packets(input));
    line.push_field(b" a=", filled_packets(whole));
    line.push_field(b" b=", filled_packets(lossy));
    push_crc(&mut line, lossy)?;
    Ok(line)
}
