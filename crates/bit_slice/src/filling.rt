//! Bits behind other bits in bytes. Behind the bits that are used their last byte has zeros.
ghost use Rattle.std.specs.Prelude.{◌≡◌, ◌+◌, ◌-◌, ◌*◌, ◌/◌, ◌%◌, ◌^◌, ◌<◌, ◌≤◌, ◌++◌, List, Bool, length, take};
ghost use Rattle.std.specs.Prelude.{drop};
ghost use Rattle.terms.specs.Bits.{field, bits_of, bytes_of, number_of, part};
ghost use Rattle.bit_slice.specs.Filling.{padded, Holds};

use crate::BitSlice;

// The field behind the first bits of a byte, with zeros up to 16 bytes.
fn window(byte: u8, first: u32, value: u64, width: u32) -> [u8; 16]
    requires first { first < 8 }
    requires some { 0 < width }
    requires narrow { width ≤ 64 }
    requires fits { value < 2 ^ width }
    ensures { (front : List Bool) → length front ≡ first → byte ≡ number_of front * 2 ^ (8 - first)
        → bits_of result ≡ padded (front ++ field width value) 128 }
{
    (u128::from(byte) << 120 | u128::from(value) << (128 - first - width)).to_be_bytes()
}

// The byte that is begun, which is put again with the bits that it has.
fn begun(bytes: &[u8], used: usize) -> u8
    requires { used ≤ 8 * length bytes.now }
    ensures { (bits : List Bool) → length bits ≡ used → Holds bytes.now bits
        → result ≡ number_of (drop (8 * (used / 8)) bits) * 2 ^ (8 - used % 8) }
{
    if used % 8 == 0 {
        return 0;
    }
    bytes[used / 8]
}

/// Puts a field behind the used bits.
pub fn put_field(bytes: &mut [u8], used: usize, value: u64, width: u32)
    requires short { length bytes.old < 2 ^ 60 }
    requires narrow { width ≤ 64 }
    requires fits { value < 2 ^ width }
    requires inside { used + width ≤ 8 * length bytes.old }
    ensures len { length bytes.new ≡ length bytes.old }
    ensures holds { (bits : List Bool) → length bits ≡ used → Holds bytes.old bits
        → Holds bytes.new (bits ++ field width value) }
{
    if width == 0 {
        return;
    }
    let (first, end) = (used / 8, (used + width as usize).div_ceil(8));
    let window = window(begun(bytes, used), (used % 8) as u32, value, width);
    bytes[first..end].copy_from_slice(&window[..end - first]);
}

// Puts a part of bits behind the used bits.
fn put_part(bytes: &mut [u8], used: usize, bits: &BitSlice<'_>, at: usize, width: u32)
    requires short { length bytes.old < 2 ^ 60 }
    requires narrow { width ≤ 64 }
    requires part { at + width ≤ length bits.now }
    requires inside { used + width ≤ 8 * length bytes.old }
    ensures len { length bytes.new ≡ length bytes.old }
    ensures holds { (front : List Bool) → length front ≡ used → Holds bytes.old front
        → Holds bytes.new (front ++ part bits.now at width) }
{
    if width == 0 {
        return;
    }
    put_field(bytes, used, bits.field(at, width), width);
}

// Puts whole bytes of bits behind the used bits, which end with a byte.
fn put_bytes(bytes: &mut [u8], used: usize, bits: &BitSlice<'_>, at: usize, count: usize)
    requires short { length bytes.old < 2 ^ 60 }
    requires aligned { used % 8 ≡ 0 }
    requires part { at + 8 * count ≤ length bits.now }
    requires inside { used + 8 * count ≤ 8 * length bytes.old }
    ensures len { length bytes.new ≡ length bytes.old }
    ensures holds { (front : List Bool) → length front ≡ used → Holds bytes.old front
        → Holds bytes.new (front ++ part bits.now at (8 * count)) }
{
    let first = used / 8;
    bits.sub(at, 8 * count)
        .copy_bytes(&mut bytes[first..first + count]);
}

/// Puts bits behind the used bits: a part up to the next byte, whole bytes, and what is left.
pub fn put_bits(bytes: &mut [u8], used: usize, bits: &BitSlice<'_>)
    requires short { length bytes.old < 2 ^ 60 }
    requires inside { used + length bits.now ≤ 8 * length bytes.old }
    ensures len { length bytes.new ≡ length bytes.old }
    ensures holds { (front : List Bool) → length front ≡ used → Holds bytes.old front
        → Holds bytes.new (front ++ bits.now) }
{
    let len = bits.len();
    let head = (8 - used % 8) % 8;
    if len < head {
        put_part(bytes, used, bits, 0, len as u32);
        return;
    }
    let count = (len - head) / 8;
    let last = head + 8 * count;
    put_part(bytes, used, bits, 0, head as u32);
    put_bytes(bytes, used + head, bits, head, count);
    put_part(bytes, used + last, bits, last, (len - last) as u32);
}

/// The bytes that bits fill at the front of some.
pub fn filled(bytes: &[u8], used: usize) -> &[u8]
    requires inside { used ≤ 8 * length bytes.now }
    requires holds { Holds bytes.now (take used (bits_of bytes.now)) }
    ensures { result.now ≡ bytes_of (take used (bits_of bytes.now)) }
{
    let end = used.div_ceil(8);
    &bytes[..end]
}
