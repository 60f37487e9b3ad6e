// The blocks of a record.
ghost use Rattle.std.specs.Prelude.{◌≡◌, ◌+◌, ◌<◌, ◌≤◌, ◌^◌, length, drop, slice_get, IsSome};
ghost use Rattle.site_frame.specs.Record.{Block};
ghost use Rattle.site_frame.specs.Reading.{Gives, block_len, skip_block, skip_blocks, blocks_in, block_at, block_of};

use byteorder::{BigEndian, ByteOrder};
use std::marker::Model;

// Behind the first block, if one is there.
fn skip_one(bytes: &[u8]) -> Option<&[u8]>
    ensures { Gives (λ x. x.now) result (skip_block bytes.now) }
{
    if bytes.len() < 4 {
        return None;
    }
    let len = 4 + usize::from(BigEndian::read_u16(&bytes[2..]));
    if bytes.len() < len {
        return None;
    }
    Some(&bytes[len..])
}

// Behind so many blocks, if they are there.
pub(crate) fn skip(count: u16, bytes: &[u8]) -> Option<&[u8]>
    ensures { Gives (λ x. x.now) result (skip_blocks count bytes.now) }
{
    let mut rest = bytes;
    for _ in 0..count {
        rest = skip_one(rest)?;
    }
    Some(rest)
}

// The first block, and what stands behind it.
fn first(bytes: &[u8]) -> (u8, &[u8], &[u8])
    requires { block_len bytes.now ≤ length bytes.now }
    ensures block { block_of result.0 result.1.now ≡ block_at bytes.now }
    ensures rest { result.2.now ≡ drop (block_len bytes.now) bytes.now }
{
    let len = usize::from(BigEndian::read_u16(&bytes[2..]));
    (bytes[0], &bytes[4..4 + len], &bytes[4 + len..])
}

/// The blocks of a record, in order. Nothing is copied.
#[derive(Drop)]
pub struct Blocks<'a> {
    bytes: &'a [u8],
    count: u16,
}

impl<'a> Model for Blocks<'a> {
    ghost use Rattle.std.specs.Prelude.{List, IsSome};
    ghost use Rattle.site_frame.specs.Record.{Block};
    ghost use Rattle.site_frame.specs.Reading.{skip_blocks, blocks_in};

    ghost Value = { List Block };

    ghost view = { λ b. blocks_in b.count b.bytes.now };

    ghost invariant = { λ b. IsSome (skip_blocks b.count b.bytes.now) };
}

impl<'a> Blocks<'a> {
    pub(crate) fn new(count: u16, bytes: &'a [u8]) -> Blocks<'a>
        requires { IsSome (skip_blocks count bytes.now) }
        ensures { result ≡ blocks_in count bytes.now }
    {
        Blocks { bytes, count }
    }

    /// The number of blocks.
    pub fn len(&self) -> u32
        ensures len { result ≡ length self.now }
        ensures small { result < 2 ^ 16 }
    {
        u32::from(self.count)
    }

    /// The PLP and the bytes of the block at a place: those before it are gone over.
    pub fn get(&self, place: u32) -> Option<(u8, &'a [u8])>
        ensures { Gives (λ x. block_of x.0 x.1.now) result (slice_get self.now place) }
    {
        if place >= u32::from(self.count) {
            return None;
        }
        let rest = skip(place as u16, self.bytes)?;
        let (plp_id, block, _) = first(rest);
        Some((plp_id, block))
    }

    /// All of them, from the first on.
    pub fn iter(&self) -> BlocksIter<'a>
        ensures { result ≡ self.now }
    {
        BlocksIter {
            rest: self.bytes,
            left: self.count,
        }
    }
}

/// The blocks that are not given out yet.
#[derive(Drop)]
pub struct BlocksIter<'a> {
    rest: &'a [u8],
    left: u16,
}

impl<'a> Model for BlocksIter<'a> {
    ghost use Rattle.std.specs.Prelude.{List, IsSome};
    ghost use Rattle.site_frame.specs.Record.{Block};
    ghost use Rattle.site_frame.specs.Reading.{skip_blocks, blocks_in};

    ghost Value = { List Block };

    ghost view = { λ b. blocks_in b.left b.rest.now };

    ghost invariant = { λ b. IsSome (skip_blocks b.left b.rest.now) };
}

impl<'a> Iterator for BlocksIter<'a> {
    ghost use Rattle.std.specs.Iterator.{YieldsFirstBy, item_count};

    type Item = (u8, &'a [u8]);

    ghost next_gives = { YieldsFirstBy (λ x. block_of x.0 x.1.now) (λ blocks. blocks) };

    ghost remaining = { item_count (λ blocks. blocks) };

    fn next(&mut self) -> Option<(u8, &'a [u8])> {
        if self.left == 0 {
            return None;
        }
        let (plp_id, block, rest) = first(self.rest);
        self.rest = rest;
        self.left -= 1;
        Some((plp_id, block))
    }
}
