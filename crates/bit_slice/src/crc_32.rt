//! CRC-32 by the shift register that divides: each function gives the register after what it takes.
ghost use Rattle.std.specs.Prelude.{◌≡◌, ◌+◌, ◌*◌, ◌^◌, ◌<◌, ◌≤◌};
ghost use Rattle.std.specs.List.{flat_map};
ghost use Rattle.terms.specs.Bits.{field, bits_of};
ghost use Rattle.bit_slice.specs.Crc.{crc32_of};
ghost use Rattle.bit_slice.specs.Register.{step as step_of, register as register_of, zeros};

use crate::BitSlice;
use crate::tables::TABLES;
use crate::window::{BLOCK, Window};

// The generator without its highest term.
const LOW: u32 = 0x04C1_1DB7;

// From so many bytes on the way by sums is the shorter one.
const MANY: usize = 640;

/// The CRC-32 of the bits, any number of them: generator 04C11DB7, all ones at the start and no inversion at the end
/// (EN 302 755, annex F; TS 102 773, annex A).
pub fn crc32(bits: BitSlice<'_>) -> u32
    ensures { result ≡ crc32_of bits.entry }
{
    after_slice(u32::MAX, &bits)
}

pub(crate) fn after_slice(register: u32, bits: &BitSlice<'_>) -> u32
    ensures { result ≡ register_of 32 LOW register bits.now }
{
    let (bytes, rest) = bits.split_bytes();
    after_bits(after_bytes(register, bytes), &rest)
}

pub(crate) fn after_field(register: u32, value: u64, width: u32) -> u32
    requires { width ≤ 64 }
    ensures { result ≡ register_of 32 LOW register (field width value) }
{
    let bytes = value.to_be_bytes();
    after_slice(
        register,
        &BitSlice::whole(&bytes).sub(64 - width as usize, width as usize),
    )
}

// The bits may begin within a byte.
fn after_bits(mut register: u32, bits: &BitSlice<'_>) -> u32
    ensures { result ≡ register_of 32 LOW register bits.now }
{
    let len = bits.len();
    let count = len / 8;
    for k in 0..count {
        register = after_byte(register, bits.field(8 * k, 8) as u8);
    }
    bit_by_bit(register, &bits.sub(8 * count, len - 8 * count))
}

fn bit_by_bit(mut register: u32, bits: &BitSlice<'_>) -> u32
    ensures { result ≡ register_of 32 LOW register bits.now }
{
    for k in 0..bits.len() {
        register = after_bit(register, bits.bit(k));
    }
    register
}

fn after_bit(register: u32, bit: bool) -> u32
    ensures { result ≡ step_of 32 LOW register bit }
{
    let shifted = register << 1;
    if (register >> 31 == 1) != bit {
        shifted ^ LOW
    } else {
        shifted
    }
}

// Many bytes go by way of sums.
fn after_bytes(register: u32, bytes: &[u8]) -> u32
    ensures { result ≡ register_of 32 LOW register (bits_of bytes.now) }
{
    if bytes.len() < MANY {
        return after_few(register, bytes);
    }
    let (blocks, rest) = bytes.as_chunks::<BLOCK>();
    after_few(after_blocks(register, blocks), rest)
}

fn after_blocks(register: u32, blocks: &[[u8; BLOCK]]) -> u32
    ensures { result ≡ register_of 32 LOW register (flat_map bits_of blocks.now) }
{
    let mut window = Window::begin(register);
    for block in blocks {
        window.pass(block);
    }
    window.register()
}

pub(crate) fn after_few(register: u32, bytes: &[u8]) -> u32
    ensures { result ≡ register_of 32 LOW register (bits_of bytes.now) }
{
    let (chunks, behind) = bytes.as_chunks::<16>();
    let (words, rest) = behind.as_chunks::<4>();
    let mut register = after_words(after_chunks(register, chunks), words);
    for byte in rest {
        register = after_byte(register, *byte);
    }
    register
}

fn after_byte(register: u32, byte: u8) -> u32
    ensures { result ≡ register_of 32 LOW register (field 8 byte) }
{
    let first = (register >> 24) as u8;
    (register << 8) ^ entry(0, first ^ byte)
}

fn after_chunks(mut register: u32, chunks: &[[u8; 16]]) -> u32
    ensures { result ≡ register_of 32 LOW register (flat_map bits_of chunks.now) }
{
    for chunk in chunks {
        register = after_chunk(register, chunk);
    }
    register
}

fn after_chunk(register: u32, chunk: &[u8; 16]) -> u32
    ensures { result ≡ register_of 32 LOW register (bits_of chunk.now) }
{
    let [a, b, c, d, e, f, g, h, i, j, k, l, m, n, o, p] = *chunk;
    let first = register ^ u32::from_be_bytes([a, b, c, d]);
    let second = u32::from_be_bytes([e, f, g, h]);
    let third = u32::from_be_bytes([i, j, k, l]);
    let fourth = u32::from_be_bytes([m, n, o, p]);
    // The back comes first: its entries are read while the register is still under way.
    after_zeros(fourth, 0) ^ after_zeros(third, 4) ^ after_zeros(second, 8) ^ after_zeros(first, 12)
}

fn after_words(mut register: u32, words: &[[u8; 4]]) -> u32
    ensures { result ≡ register_of 32 LOW register (flat_map bits_of words.now) }
{
    for word in words {
        register = after_word(register, word);
    }
    register
}

fn after_word(register: u32, word: &[u8; 4]) -> u32
    ensures { result ≡ register_of 32 LOW register (bits_of word.now) }
{
    after_zeros(register ^ u32::from_be_bytes(*word), 0)
}

// After the zero bits of four tables, from the first one on.
fn after_zeros(register: u32, first: usize) -> u32
    requires { first ≤ 12 }
    ensures { result ≡ zeros 32 LOW (8 * (first + 4)) register }
{
    let [a, b, c, d] = register.to_be_bytes();
    entry(first, d) ^ entry(first + 1, c) ^ entry(first + 2, b) ^ entry(first + 3, a)
}

// What the zero bits of a table make of a byte at the top of the register.
fn entry(table: usize, byte: u8) -> u32
    requires { table < 16 }
    ensures { result ≡ zeros 32 LOW (8 * (table + 1)) (byte * 2 ^ 24) }
{
    TABLES[table][byte as usize]
}
