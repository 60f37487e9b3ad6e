// Writing the head of a record.
ghost use Rattle.std.specs.Prelude.{◌≡◌, length};
ghost use Rattle.site_frame.specs.Record.{frame_kind, muted_kind, head_bytes, head_numbers};

use crate::head::{FRAME, HEAD, MAGIC, MUTED};
use byteorder::{BigEndian, ByteOrder};
use plp_config::Moment;

fn write_numbers(moment: &Moment, rest: u32, out: &mut [u8])
    requires { length out.old ≡ 16 }
    ensures { out.new ≡ head_numbers moment.now rest }
{
    BigEndian::write_u64(out, moment.seconds);
    BigEndian::write_u32(&mut out[8..], moment.subseconds);
    BigEndian::write_u32(&mut out[12..], rest);
}

fn write_kind(kind: u8, moment: &Moment, rest: u32, out: &mut [u8; HEAD])
    ensures { out.new ≡ head_bytes kind moment.now rest }
{
    out[..8].copy_from_slice(&[MAGIC[0], MAGIC[1], MAGIC[2], MAGIC[3], kind, 0, 0, 0]);
    write_numbers(moment, rest, &mut out[8..]);
}

/// Writes the head of a frame's record, whose rest has so many bytes.
pub fn write_head(moment: &Moment, rest: u32, out: &mut [u8; HEAD])
    ensures { out.new ≡ head_bytes frame_kind moment.now rest }
{
    write_kind(FRAME, moment, rest, out);
}

/// Writes the record of a muted frame.
pub fn write_muted(moment: &Moment, out: &mut [u8; HEAD])
    ensures { out.new ≡ head_bytes muted_kind moment.now 0 }
{
    write_kind(MUTED, moment, 0, out);
}
