// What stands at the front of bytes, and the bytes behind it.
ghost use Rattle.std.specs.Prelude.{◌≡◌, length, IfSome};
ghost use Rattle.site_frame.specs.Reading.{Gives, cut, number};

use byteorder::{BigEndian, ByteOrder};

pub(crate) fn cut_front(bytes: &[u8], len: usize) -> Option<(&[u8], &[u8])>
    ensures cut { Gives (λ x. (x.0.now, x.1.now)) result (cut len bytes.now) }
    ensures len { IfSome result (λ x. length x.0.now ≡ len) }
{
    if bytes.len() < len {
        return None;
    }
    Some((&bytes[..len], &bytes[len..]))
}

pub(crate) fn u16_front(bytes: &[u8]) -> Option<(u16, &[u8])>
    ensures { Gives (λ x. (x.0, x.1.now)) result (number 2 bytes.now) }
{
    if bytes.len() < 2 {
        return None;
    }
    Some((BigEndian::read_u16(bytes), &bytes[2..]))
}

pub(crate) fn u32_front(bytes: &[u8]) -> Option<(u32, &[u8])>
    ensures { Gives (λ x. (x.0, x.1.now)) result (number 4 bytes.now) }
{
    if bytes.len() < 4 {
        return None;
    }
    Some((BigEndian::read_u32(bytes), &bytes[4..]))
}
