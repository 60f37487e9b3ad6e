// The words of cells from an address on.
ghost use Rattle.std.specs.Prelude.{◌≡◌, ◌+◌, ◌*◌, ◌≤◌, length};
ghost use Rattle.cell_map.specs.CellMap.{Passes};
ghost use Rattle.site_frame.specs.Words.{words};

use crate::again::{NO_STRIP, put_next, strip_of};
use cell_map::{Cells, map_law};
use plp_config::Plan;
use scheduler::Shape;

/// Writes the words of so many cells of a frame from an address on. The frame is told by its number in the superframe.
pub fn fill_words(
    plan: &Plan,
    shape: &Shape,
    frame_idx: u8,
    address: u32,
    count: u32,
    out: &mut [u8],
)
    requires plps { length shape.now.counts ≡ length plan.now.plps }
    requires passes { Passes plan.now shape.now }
    requires inside { address + count ≤ plan.now.cells }
    requires len { length out.old ≡ 4 * count }
    ensures { out.new ≡ words plan.now shape.now frame_idx address count }
{
    map_law();
    plan.rules_law();
    let mut cells = Cells::resume(plan, shape, frame_idx, address);
    let mut last = NO_STRIP;
    let mut done = 0;
    while done < count {
        let stretch = cells.next_stretch(count - done);
        done += put_next(plan, shape, frame_idx, address, done, last, stretch, out);
        last = strip_of(stretch);
    }
}
