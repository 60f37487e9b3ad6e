// The header of a packet as a number of 32 bits.
ghost use Rattle.std.specs.Prelude.{◌≡◌, ◌+◌, ◌<◌, ◌≤◌, ◌^◌};
ghost use Rattle.terms.specs.Bits.{field, bits_of, part, number_at};

use crate::sizes::SIZE;

// The header at the front of a packet.
pub(crate) fn header_of(bytes: &[u8; SIZE]) -> u32
    ensures { field 32 result ≡ part (bits_of bytes.now) 0 32 }
{
    u32::from_be_bytes([bytes[0], bytes[1], bytes[2], bytes[3]])
}

// The number that `width` bits of a header spell, from the bit at a place on, the highest being at place 0.
pub(crate) fn field_at(header: u32, at: u32, width: u32) -> u32
    requires some { 0 < width }
    requires narrow { width < 32 }
    requires inside { at + width ≤ 32 }
    ensures value { result ≡ number_at (field 32 header) at width }
    ensures small { result < 2 ^ width }
{
    header >> (32 - at - width) & ((1 << width) - 1)
}
