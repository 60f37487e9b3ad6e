// Whether cells of a record are those of the map.
ghost use Rattle.std.specs.Prelude.{ℕ, ◌≡◌, ◌↔◌, ◌+◌, ◌*◌, ◌<◌, ◌≤◌, true, length, drop, slice_get, Some};
ghost use Rattle.std.specs.FinMap.{get};
ghost use Rattle.byteorder.specs.Endian.{big_number};
ghost use Rattle.cell_map.specs.CellMap.{Passes, cell_map};

use crate::again::word_at;
use crate::cells::Cells;
use crate::filling::fill_words;
use cell_map::map_law;
use plp_config::Plan;
use scheduler::Shape;

// Whether the first words of the one are those of the other. All are read, so that many can be read at once.
fn are_same(one: &[u8], other: &[u8], count: u32) -> bool
    requires one { 4 * count ≤ length one.now }
    requires other { 4 * count ≤ length other.now }
    ensures { (result ≡ true) ↔ ((i : ℕ) → i < count → big_number 4 (drop (4 * i) one.now) ≡ big_number 4
        (drop (4 * i) other.now)) }
{
    let mut same = true;
    for i in 0..count {
        let at = 4 * i as usize;
        if word_at(one, at) != word_at(other, at) {
            same = false;
        }
    }
    same
}

/// Whether so many cells of a record from an address on are those of the map of a frame. `buffer` is as long as the
/// words of the cells, and is written to.
pub fn agree(
    plan: &Plan,
    shape: &Shape,
    frame_idx: u8,
    cells: &Cells<'_>,
    address: u32,
    count: u32,
    buffer: &mut [u8],
) -> bool
    requires plps { length shape.now.counts ≡ length plan.now.plps }
    requires passes { Passes plan.now shape.now }
    requires all { length cells.now ≡ plan.now.cells }
    requires inside { address + count ≤ plan.now.cells }
    requires room { length buffer.old ≡ 4 * count }
    ensures same { (result ≡ true) ↔ ((i : ℕ) → i < count
        → slice_get cells.now (address + i) ≡ Some (get (cell_map plan.now shape.now frame_idx) (address + i))) }
    ensures len { length buffer.new ≡ length buffer.old }
{
    map_law();
    plan.rules_law();
    fill_words(plan, shape, frame_idx, address, count, buffer);
    let words = cells.words();
    are_same(buffer, &words[4 * address as usize..], count)
}
