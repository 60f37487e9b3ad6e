// Whether the cells of the blocks of a PLP stand at their addresses (EN 302 755, clause 8).
ghost use Rattle.std.specs.Prelude.{◌≡◌, ◌<◌, ◌≤◌, ◌+◌, ◌*◌, ◌^◌, ◌&&◌, ℕ, false, length, slice_index, slice_index_or};
ghost use Rattle.std.specs.Prelude.{sum, take, List, Some};
ghost use Rattle.cell_map.specs.CellMap.{Passes};
ghost use Rattle.site_frame.specs.Record.{Block};
ghost use Rattle.plp_receiver.specs.Parts.{is_cell, all_stand, part_with};
ghost use Rattle.plp_receiver.specs.Seeing.{is_seen, seen_from, all_seen};

use cell_map::{Cell, Cells, map_law};
use plp_config::Plan;
use scheduler::Shape;
use site_frame::{Cells as Words, agree};

// Whether a cell is what is found.
fn is_found(cell: Cell, found: Option<Cell>) -> bool
    ensures { result ≡ is_cell cell.ordinal cell.cell (Some found) }
{
    match found {
        Some(found) => found.ordinal == cell.ordinal && found.cell == cell.cell,
        None => false,
    }
}

// Sees what is found if the map has a cell, or none: the test of its block fails if it is another. The first test is
// that of the block with this ordinal.
fn see(expected: Option<Cell>, found: Option<Cell>, first: u32, stands: &mut [bool])
    ensures len { length stands.new ≡ length stands.old }
    ensures each { (k : ℕ) → k < length stands.old → slice_index_or stands.new k false
        ≡ (slice_index_or stands.old k false && is_seen (first + k) expected found) }
{
    let Some(cell) = expected else {
        return;
    };
    if is_found(cell, found) || cell.ordinal < first {
        return;
    }
    let block = (cell.ordinal - first) as usize;
    if block < stands.len() {
        stands[block] = false;
    }
}

// The same of so many cells of a record from an address on, one by one.
fn see_each(
    plan: &Plan,
    shape: &Shape,
    frame_idx: u8,
    cells: &Words<'_>,
    address: u32,
    count: u32,
    first: u32,
    stands: &mut [bool],
)
    requires plps { length shape.now.counts ≡ length plan.now.plps }
    requires passes { Passes plan.now shape.now }
    requires all { length cells.now ≡ plan.now.cells }
    requires inside { address + count ≤ plan.now.cells }
    ensures len { length stands.new ≡ length stands.old }
    ensures each { (k : ℕ) → k < length stands.old → slice_index_or stands.new k false
        ≡ (slice_index_or stands.old k false && seen_from plan.now shape.now frame_idx cells.now (first + k)
        address count) }
{
    let mut expected = Cells::resume(plan, shape, frame_idx, address);
    for i in 0..count {
        let Some(found) = cells.get(address + i) else {
            return;
        };
        see(expected.next_cell(), found, first, stands);
    }
}

// The same: if their words are those of the map, nothing fails.
fn see_piece(
    plan: &Plan,
    shape: &Shape,
    frame_idx: u8,
    cells: &Words<'_>,
    address: u32,
    count: u32,
    first: u32,
    stands: &mut [bool],
    buffer: &mut [u8],
)
    requires plps { length shape.now.counts ≡ length plan.now.plps }
    requires passes { Passes plan.now shape.now }
    requires all { length cells.now ≡ plan.now.cells }
    requires inside { address + count ≤ plan.now.cells }
    requires room { 4 * count ≤ length buffer.old }
    ensures len { length stands.new ≡ length stands.old }
    ensures each { (k : ℕ) → k < length stands.old → slice_index_or stands.new k false
        ≡ (slice_index_or stands.old k false && seen_from plan.now shape.now frame_idx cells.now (first + k)
        address count) }
    ensures room { length buffer.new ≡ length buffer.old }
{
    let words = &mut buffer[..4 * count as usize];
    if agree(plan, shape, frame_idx, cells, address, count, words) {
        return;
    }
    see_each(plan, shape, frame_idx, cells, address, count, first, stands);
}

// Cells that are looked at at once, and the bytes of their words.
const PIECE: u32 = 4_096;

const PIECE_BYTES: usize = 4 * PIECE as usize;

// The same of all cells of a record.
fn see_all(
    plan: &Plan,
    shape: &Shape,
    frame_idx: u8,
    cells: &Words<'_>,
    first: u32,
    stands: &mut [bool],
)
    requires plps { length shape.now.counts ≡ length plan.now.plps }
    requires passes { Passes plan.now shape.now }
    requires all { length cells.now ≡ plan.now.cells }
    ensures len { length stands.new ≡ length stands.old }
    ensures each { (k : ℕ) → k < length stands.old → slice_index_or stands.new k false
        ≡ (slice_index_or stands.old k false && all_seen plan.now shape.now frame_idx cells.now (first + k)) }
{
    let end = plan.config().cells;
    let mut buffer = [0; PIECE_BYTES];
    let mut address = 0;
    while address < end {
        let count = (end - address).min(PIECE);
        see_piece(
            plan,
            shape,
            frame_idx,
            cells,
            address,
            count,
            first,
            stands,
            &mut buffer,
        );
        address += count;
    }
}

// The ordinal of the first block of a PLP.
fn first_ordinal(shape: &Shape, plp: usize) -> u32
    requires inside { plp ≤ length shape.now.counts }
    requires few { length shape.now.counts ≤ 255 }
    ensures value { result ≡ sum (take plp shape.now.counts) }
    ensures small { result < 2 ^ 24 }
{
    let mut first = 0;
    for before in 0..plp {
        first += u32::from(shape.count(before));
    }
    first
}

/// Sees which cells of the blocks of a PLP stand in the record of a frame of this shape. The test of a block fails if
/// one does not. There may be tests of more blocks, which decide nothing.
pub fn see_standing(
    plan: &Plan,
    shape: &Shape,
    plp: usize,
    number: u64,
    cells: &Words<'_>,
    stands: &mut [bool],
)
    requires plps { length shape.now.counts ≡ length plan.now.plps }
    requires passes { Passes plan.now shape.now }
    requires all { length cells.now ≡ plan.now.cells }
    requires inside { plp < length plan.now.plps }
    ensures len { length stands.new ≡ length stands.old }
    ensures each { (blocks : List Block) (k : ℕ) → k < length stands.old → k < slice_index shape.now.counts plp
        → slice_index_or stands.new k false
        ≡ (slice_index_or stands.old k false && all_stand plan.now plp (part_with number blocks shape.now cells.now)
        k) }
{
    map_law();
    plan.rules_law();
    let first = first_ordinal(shape, plp);
    see_all(plan, shape, plan.frame_idx(number), cells, first, stands);
}
