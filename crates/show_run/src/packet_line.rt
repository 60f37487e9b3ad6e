// The line that is said of a packet.
ghost use Rattle.std.specs.Prelude.{◌≡◌, ◌*◌, ◌<◌, ◌≤◌, take, length};
ghost use Rattle.terms.specs.Bits.{byte_at};
ghost use Rattle.show_run.specs.SaidLines.{head_of, view_line};

use bit_slice::BitSlice;
use file_run::Line;
use t2mi_packet::PacketView;

// Byte k of some bits, a last part of a byte filled with zero bits.
fn byte(bits: &BitSlice<'_>, k: usize) -> u8
    requires { 8 * k < length bits.now }
    ensures { result ≡ byte_at bits.now k }
{
    let left = bits.len() - 8 * k;
    if left >= 8 {
        bits.field(8 * k, 8) as u8
    } else {
        (bits.field(8 * k, left as u32) << (8 - left)) as u8
    }
}

// Puts the first 8 bytes of some bits into the buffer, or all: how many.
fn head(bits: &BitSlice<'_>, bytes: &mut [u8; 8]) -> usize
    ensures head { take result bytes.new ≡ head_of bits.now }
    ensures count { result ≤ 8 }
{
    let count = ((bits.len() + 7) / 8).min(8);
    for k in 0..count {
        bytes[k] = byte(bits, k);
    }
    count
}

/// The line of a packet that stands at a place of a file, with a key in front of the place.
#[tactic(auto, unfolding(crate::specs::SaidLines::view_line))]
pub fn packet_line(key: &[u8], at: u64, packet: &PacketView<'_>) -> Line
    requires { length key.now ≤ 8 }
    ensures { result ≡ view_line key.now at packet.now }
{
    let mut bytes = [0; 8];
    let count = head(&packet.payload, &mut bytes);
    let mut line = Line::new();
    line.push_field(key, at);
    line.push(b" type=");
    line.push_hex(&[packet.packet_type]);
    line.push_field(b" count=", u64::from(packet.packet_count));
    line.push_field(b" superframe=", u64::from(packet.superframe));
    line.push_field(b" stream=", u64::from(packet.stream));
    line.push_field(b" bits=", packet.payload.len() as u64);
    line.push(b" head=");
    line.push_hex(&bytes[..count]);
    line.push(b"\n");
    line
}
