// The words of a row. Bytes are pieces in hexadecimal joined by `+`, any of them `PIECE*N` for N times; numbers are
// decimal.
ghost use Rattle.std.specs.Prelude.{◌<◌, ◌≤◌, ◌^◌, length};

use bit_slice::BitSlice;
use hex::{decode, encode};
use std::alloc::{AllocError, Global};

// How many bytes of a word are seen as bits at most.
const MOST_BYTES: usize = 1 << 20;

/// The words of a row.
#[derive(Drop)]
pub(crate) struct Words<'a> {
    alloc: Global,
    list: Vec<&'a str>,
}

/// The number that a word spells, 0 if it spells none.
pub(crate) fn number(word: &str) -> usize {
    word.parse::<usize>().unwrap_or(0)
}

/// The same of a number of 8, of 16 and of 32 bits.
pub(crate) fn number_8(word: &str) -> u8 {
    word.parse::<u8>().unwrap_or(0)
}

pub(crate) fn number_16(word: &str) -> u16 {
    word.parse::<u16>().unwrap_or(0)
}

pub(crate) fn number_32(word: &str) -> u32 {
    word.parse::<u32>().unwrap_or(0)
}

fn push_piece(alloc: Global, bytes: &mut Vec<u8>, piece: &str) -> Result<(), AllocError> {
    let (one, times) = piece.split_once('*').unwrap_or((piece, "1"));
    let Ok(own) = decode(alloc, one.as_bytes()) else {
        return Ok(());
    };
    for _ in 0..number(times) {
        bytes.extend_from_slice(own.as_slice())?;
    }
    Ok(())
}

/// Bytes in hexadecimal.
pub(crate) fn spelled(alloc: Global, bytes: &[u8]) -> Result<String, AllocError> {
    encode(alloc, bytes)
}

/// All bits of some bytes.
pub(crate) fn all_bits(bytes: &[u8]) -> BitSlice<'_>
    ensures { length result ≤ 2 ^ 23 }
{
    BitSlice::whole(&bytes[..bytes.len().min(MOST_BYTES)])
}

/// So many of the bits from one on, fewer if there are not so many.
pub(crate) fn part_of(bytes: &[u8], first: usize, len: usize) -> BitSlice<'_>
    ensures { length result ≤ 2 ^ 23 }
{
    let bits = all_bits(bytes);
    let first = first.min(bits.len());
    bits.sub(first, len.min(bits.len() - first))
}

impl<'a> Words<'a> {
    /// Those of a line, between spaces.
    pub(crate) fn new(alloc: Global, line: &'a str) -> Result<Words<'a>, AllocError> {
        let mut list = Vec::new(alloc);
        for word in line.split(' ') {
            list.push(word)?;
        }
        Ok(Words { alloc, list })
    }

    /// The first one.
    pub(crate) fn verb(&self) -> &'a str {
        self.word(0)
    }

    /// The one at a place, empty behind the last.
    pub(crate) fn word(&self, at: usize) -> &'a str {
        self.list.get(at).copied().unwrap_or("")
    }

    /// How many they are.
    pub(crate) fn count(&self) -> usize {
        self.list.len()
    }

    /// The number at a place.
    pub(crate) fn number(&self, at: usize) -> usize {
        number(self.word(at))
    }

    /// The bytes at a place.
    pub(crate) fn bytes(&self, at: usize) -> Result<Vec<u8>, AllocError> {
        let mut bytes = Vec::new(self.alloc);
        for piece in self.word(at).split('+') {
            push_piece(self.alloc, &mut bytes, piece)?;
        }
        Ok(bytes)
    }
}
