// Writing a transport packet.
ghost use Rattle.std.specs.Prelude.{◌≡◌, ◌+◌, ◌-◌, ◌<◌, ◌≤◌, ◌^◌, false, [], ◌++◌, length, take};
ghost use Rattle.terms.specs.Bits.{field, bytes_of};
ghost use Rattle.ts_packet.specs.TransportPacket.{Spells, header_bits, adaptation_bytes};
ghost use Rattle.ts_packet.specs.Written.{area_of, stuffing, written_fields, written_bytes};

use crate::sizes::{PAYLOAD, SIZE, SYNC};

// The header of a packet without error, priority and scrambling.
fn header(pid: u16, counter: u8, pointer: Option<u8>, control: u32) -> u32
    requires pid { pid < 2 ^ 13 }
    requires counter { counter < 2 ^ 4 }
    requires control { control < 2 ^ 2 }
    ensures { field 32 result ≡ header_bits (written_fields pid counter pointer []) false control }
{
    let starts = u32::from(pointer.is_some());
    u32::from(SYNC) << 24 | starts << 22 | u32::from(pid) << 8 | control << 4 | u32::from(counter)
}

// The bytes of that header.
fn header_bytes(pid: u16, counter: u8, pointer: Option<u8>, control: u32) -> [u8; 4]
    requires pid { pid < 2 ^ 13 }
    requires counter { counter < 2 ^ 4 }
    requires control { control < 2 ^ 2 }
    ensures { result ≡ bytes_of (header_bits (written_fields pid counter pointer []) false control) }
{
    header(pid, counter, pointer, control).to_be_bytes()
}

// Fills the space between header and payload area by an adaptation field.
fn fill_space(space: &mut [u8])
    requires { length space.old ≤ 183 }
    ensures { space.new ≡ adaptation_bytes (stuffing (length space.old)) }
{
    let len = space.len();
    space.fill(0xFF);
    if len > 0 {
        space[0] = (len - 1) as u8;
    }
    if len > 1 {
        space[1] = 0;
    }
}

// Writes two parts of a payload one behind the other.
fn write_both(bytes: &mut [u8], front: &[u8], back: &[u8])
    requires { length bytes.old ≡ length (front.now ++ back.now) }
    ensures { bytes.new ≡ front.now ++ back.now }
{
    bytes[..front.len()].copy_from_slice(front);
    bytes[front.len()..].copy_from_slice(back);
}

// Writes the payload, behind its pointer_field if there is one.
fn write_area(area: &mut [u8], pointer: Option<u8>, front: &[u8], back: &[u8])
    requires { length area.old ≡ length (area_of pointer (front.now ++ back.now)) }
    ensures { area.new ≡ area_of pointer (front.now ++ back.now) }
{
    match pointer {
        None => write_both(area, front, back),
        Some(pointer) => {
            area[0] = pointer;
            write_both(&mut area[1..], front, back);
        }
    }
}

// Fills the space behind the header, up to the place where the payload area begins, and writes that.
fn write_rest(bytes: &mut [u8], at: usize, pointer: Option<u8>, front: &[u8], back: &[u8])
    requires header { 4 ≤ at }
    requires space { at ≤ 187 }
    requires whole { length bytes.old ≡ at + length (area_of pointer (front.now ++ back.now)) }
    ensures { bytes.new ≡ take 4 bytes.old ++ adaptation_bytes (stuffing (at - 4)) ++ area_of pointer
        (front.now ++ back.now) }
{
    fill_space(&mut bytes[4..at]);
    write_area(&mut bytes[at..], pointer, front, back);
}

/// Writes a packet of this PID, below 8,192, and continuity_counter, below 16, with the payload at its end: `front` and
/// `back`, one behind the other.
///
/// The payload has 1 to 184 bytes, and at most 183 behind a `pointer`, which stands as pointer_field in front of it and
/// sets payload_unit_start_indicator. Space that is left is an adaptation field between header and payload. Error
/// indicator, priority and scrambling are 0.
pub fn write_payload(
    out: &mut [u8; SIZE],
    pid: u16,
    counter: u8,
    pointer: Option<u8>,
    front: &[u8],
    back: &[u8],
)
    requires pid { pid < 2 ^ 13 }
    requires counter { counter < 2 ^ 4 }
    requires some { 1 ≤ length (front.now ++ back.now) }
    requires room { length (area_of pointer (front.now ++ back.now)) ≤ PAYLOAD }
    ensures bytes { out.new ≡ written_bytes pid counter pointer (front.now ++ back.now) }
    ensures spells { Spells (written_fields pid counter pointer (front.now ++ back.now)) out.new }
{
    let area = front.len() + back.len() + usize::from(pointer.is_some());
    let control = if area < PAYLOAD { 3 } else { 1 };
    out[..4].copy_from_slice(&header_bytes(pid, counter, pointer, control));
    write_rest(out, SIZE - area, pointer, front, back);
}
