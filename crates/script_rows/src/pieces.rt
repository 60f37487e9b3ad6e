// The bytes of files, as a script writes them: pieces between spaces. A piece is bytes in hexadecimal; a file, `@NAME`,
// or a part of one, `@NAME:FROM:TO`; transport packets with their numbers, `#FROM:TO`; or words of cells, `%COUNT`. Any
// of them may stand N times, `PIECE*N`.
use crate::bench::Files;
use std::alloc::AllocError;

// The bytes of a unit.
const UNIT: usize = 188;

// The cells of a frame.
const CELLS: u32 = 40_000;

/// The number that a text spells, `N`, or so many units, `Nu`; if it spells none, this other one.
pub(crate) fn number(text: &str, other: usize) -> usize {
    match text.strip_suffix('u') {
        Some(units) => units.parse::<usize>().unwrap_or(0).saturating_mul(UNIT),
        None => text.parse::<usize>().unwrap_or(other),
    }
}

fn digit(byte: u8) -> u8 {
    match byte {
        b'0'..=b'9' => byte - b'0',
        b'a'..=b'f' => byte - b'a' + 10,
        _ => 0,
    }
}

fn push_hex(bytes: &mut Vec<u8>, text: &str) -> Result<(), AllocError> {
    for pair in text.as_bytes().chunks_exact(2) {
        let byte = digit(pair[0]).wrapping_mul(16).wrapping_add(digit(pair[1]));
        bytes.extend_from_slice(&[byte])?;
    }
    Ok(())
}

// The two numbers behind the name of a part, all if there are none.
fn bounds(text: &str) -> (usize, usize) {
    match text.split_once(':') {
        Some((from, to)) => (number(from, 0), number(to, usize::MAX)),
        None => (number(text, 0), usize::MAX),
    }
}

fn cut(bytes: &[u8], from: usize, to: usize) -> &[u8] {
    bytes.get(from..to.min(bytes.len())).unwrap_or(&[])
}

fn push_part(files: &Files, bytes: &mut Vec<u8>, text: &str) -> Result<(), AllocError> {
    let (name, part) = text.split_once(':').unwrap_or((text, ""));
    let (from, to) = bounds(part);
    bytes.extend_from_slice(cut(files.bytes(name), from, to))
}

fn push_packets(bytes: &mut Vec<u8>, text: &str) -> Result<(), AllocError> {
    let (from, to) = bounds(text);
    for number in from..to {
        bytes.extend_from_slice(&[0x47, 0x01, 0x00, 0x10])?;
        bytes.extend_from_slice(&((number % 65_536) as u16).to_be_bytes())?;
        bytes.extend_from_slice(&[0xAB; 182])?;
    }
    Ok(())
}

// The word of an address: of so many cells of two blocks, five columns of each in a row, or of a dummy cell.
fn word_at(address: u32, count: u32) -> u32 {
    if address >= count {
        return 0xFFFF_FFFF;
    }
    let column = address % 10;
    column / 5 * 32_768 + column % 5 * 1_620 + address / 10
}

fn push_cells(bytes: &mut Vec<u8>, count: u32) -> Result<(), AllocError> {
    for address in 0..CELLS {
        bytes.extend_from_slice(&word_at(address, count).to_be_bytes())?;
    }
    Ok(())
}

fn push_one(files: &Files, bytes: &mut Vec<u8>, text: &str) -> Result<(), AllocError> {
    if let Some(part) = text.strip_prefix('@') {
        push_part(files, bytes, part)
    } else if let Some(numbers) = text.strip_prefix('#') {
        push_packets(bytes, numbers)
    } else if let Some(count) = text.strip_prefix('%') {
        push_cells(bytes, count.parse::<u32>().unwrap_or(0))
    } else {
        push_hex(bytes, text)
    }
}

fn push_piece(files: &Files, bytes: &mut Vec<u8>, text: &str) -> Result<(), AllocError> {
    let (one, times) = text.split_once('*').unwrap_or((text, "1"));
    for _ in 0..number(times, 1) {
        push_one(files, bytes, one)?;
    }
    Ok(())
}

/// The bytes of some pieces.
pub(crate) fn bytes_of(files: &Files, text: &str) -> Result<Vec<u8>, AllocError> {
    let mut bytes = Vec::new(files.alloc());
    for piece in text.split(' ') {
        push_piece(files, &mut bytes, piece)?;
    }
    Ok(bytes)
}
