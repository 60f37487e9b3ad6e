//! CRC-8 by the shift register that divides: each function gives the register after what it takes.
ghost use Rattle.std.specs.Prelude.{◌≡◌};
ghost use Rattle.terms.specs.Bits.{field, bits_of};
ghost use Rattle.bit_slice.specs.Crc.{crc8_of};
ghost use Rattle.bit_slice.specs.Register.{step as step_of, register as register_of};

use crate::BitSlice;
use crate::tables::BYTE_TABLE;

// The generator without its highest term.
const LOW: u8 = 0xD5;

/// The CRC-8 of the bits, any number of them: generator X^8 + X^7 + X^6 + X^4 + X^2 + 1, zeros at the start and no
/// inversion at the end (EN 302 755, annex F).
pub fn crc8(bits: BitSlice<'_>) -> u8
    ensures { result ≡ crc8_of bits.entry }
{
    let (bytes, rest) = bits.split_bytes();
    after_bits(after_bytes(0, bytes), &rest)
}

// The bits may begin within a byte.
fn after_bits(mut register: u8, bits: &BitSlice<'_>) -> u8
    ensures { result ≡ register_of 8 LOW register bits.now }
{
    let len = bits.len();
    let count = len / 8;
    for k in 0..count {
        register = after_byte(register, bits.field(8 * k, 8) as u8);
    }
    bit_by_bit(register, &bits.sub(8 * count, len - 8 * count))
}

fn bit_by_bit(mut register: u8, bits: &BitSlice<'_>) -> u8
    ensures { result ≡ register_of 8 LOW register bits.now }
{
    for k in 0..bits.len() {
        register = after_bit(register, bits.bit(k));
    }
    register
}

fn after_bit(register: u8, bit: bool) -> u8
    ensures { result ≡ step_of 8 LOW register bit }
{
    let shifted = register << 1;
    if (register >> 7 == 1) != bit {
        shifted ^ LOW
    } else {
        shifted
    }
}

fn after_bytes(mut register: u8, bytes: &[u8]) -> u8
    ensures { result ≡ register_of 8 LOW register (bits_of bytes.now) }
{
    for byte in bytes {
        register = after_byte(register, *byte);
    }
    register
}

fn after_byte(register: u8, byte: u8) -> u8
    ensures { result ≡ register_of 8 LOW register (field 8 byte) }
{
    BYTE_TABLE[(register ^ byte) as usize]
}
