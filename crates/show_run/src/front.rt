// The packet at the front of what was read.
ghost use Rattle.std.specs.Prelude.{◌<◌, ◌≤◌, ◌+◌, ◌^◌, length, IfOk, IfErr};
ghost use Rattle.show_run.specs.Front.{IsFront, RefusesFront, IsLacking};
ghost use Rattle.t2mi_packet.specs.declared.reading.TheConstants.{LARGEST};

use crate::packet_line::packet_line;
use file_run::Line;
use t2mi_packet::{LARGEST, PacketWhy, needed, view};

// Bytes of a header.
const HEADER: usize = 6;

// Bytes of a packet without payload: a header, and CRC_32.
const SHORTEST: usize = 6 + 4;

/// How many bytes more tell what comes next: of the header, or of the packet whose header is there.
pub fn lacking(bytes: &[u8]) -> usize
    requires { length bytes.now ≤ LARGEST }
    ensures is { IsLacking bytes.now result }
    ensures few { length bytes.now + result ≤ LARGEST }
{
    match needed(bytes) {
        Some(len) => len.saturating_sub(bytes.len()),
        None => HEADER - bytes.len(),
    }
}

/// The line of the packet at the front of the bytes, and its length.
pub fn front_line(bytes: &[u8], at: u64) -> Result<(Line, usize), PacketWhy>
    requires { length bytes.now < 2 ^ 60 }
    ensures ok { IfOk result (λ x. IsFront bytes.now at x.0 x.1) }
    ensures len { IfOk result (λ x. (SHORTEST ≤ x.1) × (x.1 ≤ length bytes.now)) }
    ensures err { IfErr result (RefusesFront bytes.now) }
{
    match view(bytes) {
        Ok((packet, len)) => Ok((packet_line(b"offset=", at, &packet), len)),
        Err(fault) => Err(fault.why),
    }
}
