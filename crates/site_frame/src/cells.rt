// The cells of a record.
ghost use Rattle.std.specs.Prelude.{◌≡◌, ◌*◌, ◌≤◌, ◌<◌, length, drop, slice_get};
ghost use Rattle.byteorder.specs.Endian.{big_number};
ghost use Rattle.site_frame.specs.Reading.{cells_in};
ghost use Rattle.site_frame.specs.Record.{cell_of};

use byteorder::{BigEndian, ByteOrder};
use cell_map::Cell;
use std::marker::Model;

// The word of a dummy cell.
const DUMMY: u32 = 0xFFFF_FFFF;

// The words of one block: its cells are fewer.
const BLOCK_WORDS: u32 = 32_768;

// What a word spells.
fn cell(word: u32) -> Option<Cell>
    ensures { result ≡ cell_of word }
{
    if word == DUMMY {
        return None;
    }
    Some(Cell {
        ordinal: word / BLOCK_WORDS,
        cell: word % BLOCK_WORDS,
    })
}

// The first cell, and what stands behind it.
fn first(bytes: &[u8]) -> (Option<Cell>, &[u8])
    requires { 4 ≤ length bytes.now }
    ensures cell { result.0 ≡ cell_of (big_number 4 bytes.now) }
    ensures rest { result.1.now ≡ drop 4 bytes.now }
{
    (cell(BigEndian::read_u32(bytes)), &bytes[4..])
}

/// The cells of a record, by address: each a cell of a block, or dummy. Nothing is copied.
#[derive(Drop)]
pub struct Cells<'a> {
    bytes: &'a [u8],
    count: u32,
}

impl<'a> Model for Cells<'a> {
    ghost use Rattle.std.specs.Prelude.{List, Option, length, ◌*◌, ◌≤◌};
    ghost use Rattle.cell_map.specs.declared.places.Cell.{Cell};
    ghost use Rattle.site_frame.specs.Reading.{cells_in};

    ghost Value = { List (Option Cell) };

    ghost view = { λ c. cells_in c.count c.bytes.now };

    ghost invariant = { λ c. 4 * c.count ≤ length c.bytes.now };
}

impl<'a> Cells<'a> {
    pub(crate) fn new(count: u32, bytes: &'a [u8]) -> Cells<'a>
        requires { 4 * count ≤ length bytes.now }
        ensures { result ≡ cells_in count bytes.now }
    {
        Cells { bytes, count }
    }

    /// The number of cells.
    pub fn len(&self) -> u32
        ensures { result ≡ length self.now }
    {
        self.count
    }

    /// The cell at an address: the outer `None` exactly past the end, the inner `None` for a dummy cell.
    pub fn get(&self, address: u32) -> Option<Option<Cell>>
        ensures { result ≡ slice_get self.now address }
    {
        if address >= self.count {
            return None;
        }
        let word = BigEndian::read_u32(&self.bytes[4 * address as usize..]);
        Some(cell(word))
    }

    /// The bytes of their words, from address 0 on, four for each, and of what may follow them.
    pub fn words(&self) -> &'a [u8]
        ensures len { 4 * length self.now ≤ length result.now }
        ensures cells { self.now ≡ cells_in (length self.now) result.now }
    {
        self.bytes
    }

    /// All of them, from address 0 on.
    pub fn iter(&self) -> CellsIter<'a>
        ensures { result ≡ self.now }
    {
        CellsIter {
            rest: self.bytes,
            left: self.count,
        }
    }
}

/// The cells from an address on.
#[derive(Drop)]
pub struct CellsIter<'a> {
    rest: &'a [u8],
    left: u32,
}

impl<'a> Model for CellsIter<'a> {
    ghost use Rattle.std.specs.Prelude.{List, Option, length, ◌*◌, ◌≤◌};
    ghost use Rattle.cell_map.specs.declared.places.Cell.{Cell};
    ghost use Rattle.site_frame.specs.Reading.{cells_in};

    ghost Value = { List (Option Cell) };

    ghost view = { λ c. cells_in c.left c.rest.now };

    ghost invariant = { λ c. 4 * c.left ≤ length c.rest.now };
}

impl<'a> Iterator for CellsIter<'a> {
    ghost use Rattle.std.specs.Iterator.{YieldsFirst, item_count};

    type Item = Option<Cell>;

    ghost next_gives = { YieldsFirst (λ cells. cells) };

    ghost remaining = { item_count (λ cells. cells) };

    fn next(&mut self) -> Option<Option<Cell>> {
        if self.left == 0 {
            return None;
        }
        let (cell, rest) = first(self.rest);
        self.rest = rest;
        self.left -= 1;
        Some(cell)
    }
}
