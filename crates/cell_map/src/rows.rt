// What the map needs of a PLP in a frame.
ghost use Rattle.std.specs.Prelude.{◌≡◌, ◌+◌, ◌*◌, ◌<◌, ◌≤◌, ◌^◌, length, slice_index};
ghost use Rattle.plp_config.specs.Capacity.{IsPlan, block_cells};
ghost use Rattle.scheduler.specs.Shape.{cells_of};
ghost use Rattle.cell_map.specs.Address.{first_position};
ghost use Rattle.cell_map.specs.Slices.{IsRow, slice_count, slices_of};

use crate::slices::Slices;
use plp_config::Plan;
use scheduler::Shape;

/// What the plan says of a PLP.
#[derive(Clone, Copy)]
pub struct Row {
    // Cells of a block.
    pub cells: u32,
    // Blocks in an interleaving frame at most.
    pub blocks: u32,
    // The length of its interleaver.
    pub interleave: u32,
    // Slices in a frame.
    pub slices: u32,
    // The frames that carry an interleaving frame.
    pub spread: u32,
}

fn slice_count(plan: &Plan, plp: usize) -> u32
    requires { plp < length plan.now.plps }
    ensures { result ≡ slice_count plan.now plp }
{
    if plan.is_type2(plp) {
        u32::from(plan.config().sub_slices)
    } else {
        1
    }
}

/// The row of the PLP at a place.
pub fn row_of(plan: &Plan, plp: usize) -> Row
    requires { plp < length plan.now.plps }
    ensures row { IsRow plan.now plp result }
    ensures plan { IsPlan plan.now }
{
    let entry = plan.config().plps.get(plp).unwrap();
    Row {
        cells: plan.block_cells(plp),
        blocks: u32::from(entry.blocks),
        interleave: u32::from(entry.interleave),
        slices: slice_count(plan, plp),
        spread: plan.spread(plp),
    }
}

/// A PLP in a frame: how many blocks its interleaving frame has, how many of their cells the frame carries, and its
/// slices.
#[derive(Clone, Copy)]
pub struct PlpInFrame {
    pub row: Row,
    pub count: u32,
    pub cells: u32,
    pub slices: Slices,
}

/// What a frame has of the PLP at a place.
pub fn plp_in_frame(plan: &Plan, shape: &Shape, plp: usize) -> PlpInFrame
    requires plps { length shape.now.counts ≡ length plan.now.plps }
    requires plp { plp < length plan.now.plps }
    ensures row { IsRow plan.now plp result.row }
    ensures count { result.count ≡ slice_index shape.now.counts plp }
    ensures few_blocks { result.count < 2 ^ 16 }
    ensures cells { result.cells ≡ cells_of plan.now shape.now.counts plp }
    ensures slices { result.slices ≡ slices_of plan.now shape.now plp }
    ensures start { result.slices.start < 2 ^ 32 }
    ensures len { result.slices.len < 2 ^ 32 }
    ensures some { 0 < result.slices.count }
    ensures few { result.slices.count < 2 ^ 32 }
    ensures plan { IsPlan plan.now }
{
    let row = row_of(plan, plp);
    let count = u32::from(shape.count(plp));
    let cells = count * row.cells / row.spread;
    PlpInFrame {
        row,
        count,
        cells,
        slices: Slices {
            start: u64::from(shape.start(plp)),
            len: u64::from(cells / row.slices),
            count: u64::from(row.slices),
        },
    }
}

/// The first position of a PLP that a frame carries, by its number in the superframe.
pub fn first_position(plan: &Plan, shape: &Shape, frame_idx: u8, plp: usize) -> u32
    requires plps { length shape.now.counts ≡ length plan.now.plps }
    requires plp { plp < length plan.now.plps }
    ensures value { result ≡ first_position plan.now shape.now frame_idx plp }
    // the positions that the frame carries are all there
    ensures inside { result + cells_of plan.now shape.now.counts plp
        ≤ slice_index shape.now.counts plp * block_cells plan.now plp }
{
    let it = plp_in_frame(plan, shape, plp);
    u32::from(frame_idx) % it.row.spread * it.cells
}
