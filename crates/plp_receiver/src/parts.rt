// What the record of a frame tells of the epoch under way.
ghost use Rattle.std.specs.Prelude.{◌≡◌, ◌<◌, ◌∷◌, [], true, length, drop, slice_index, sum, take, vec_len, Some};
ghost use Rattle.plp_config.specs.Capacity.{block_bytes};
ghost use Rattle.plp_config.specs.InterleavingFrames.{is_first};
ghost use Rattle.plp_config.specs.Plps.{plp_at};
ghost use Rattle.frame_groups.specs.Readable.{shape_agrees, coming};
ghost use Rattle.plp_receiver.specs.Parts.{part_with};
ghost use Rattle.plp_receiver.specs.Holds.{Sees, Keeps, room_of};

use crate::held::HeldBlocks;
use frame_groups::map_test_law;
use plp_config::Plan;
use scheduler::Shape;
use site_frame::{Blocks, BlocksIter, Cells};

/// How many blocks of a PLP come with a frame: those of the epoch that begins in it, if one does.
pub fn begun_count(plan: &Plan, shape: &Shape, number: u64, plp: usize) -> u16
    requires inside { plp < length plan.now.plps }
    requires plps { length shape.now.counts ≡ length plan.now.plps }
    ensures { result ≡ slice_index (coming plan.now number shape.now) plp }
{
    if plan.is_first(plp, number) {
        shape.count(plp)
    } else {
        0
    }
}

// How many blocks come with a frame before those of a PLP.
fn first_place(plan: &Plan, shape: &Shape, number: u64, plp: usize) -> u32
    requires inside { plp < length plan.now.plps }
    requires plps { length shape.now.counts ≡ length plan.now.plps }
    ensures value { result ≡ sum (take plp (coming plan.now number shape.now)) }
{
    plan.rules_law();
    let mut first = 0;
    for before in 0..plp {
        first += u32::from(begun_count(plan, shape, number, before));
    }
    first
}

// Goes past so many blocks.
fn skip_blocks(rest: &mut BlocksIter<'_>, count: u32)
    ensures { rest.new ≡ drop count rest.old }
{
    for _ in 0..count {
        let _ = rest.next();
    }
}

// Sees the record of a frame of this shape in which an epoch begins: holds its blocks, and sees which of its cells
// stand.
fn see_first(
    plan: &Plan,
    shape: &Shape,
    plp: usize,
    number: u64,
    blocks: &Blocks<'_>,
    cells: &Cells<'_>,
    held: &mut HeldBlocks,
)
    requires inside { plp < length plan.now.plps }
    requires plps { length shape.now.counts ≡ length plan.now.plps }
    requires agrees { shape_agrees plan.now number blocks.now cells.now shape.now ≡ true }
    requires size { held.old.len ≡ block_bytes plan.now plp }
    requires few { vec_len held.old.stands ≡ (plp_at plan.now.plps plp).blocks }
    requires begins { is_first plan.now plp number ≡ true }
    ensures keeps { Keeps plan.now plp (part_with number blocks.now shape.now cells.now)
        (part_with number blocks.now shape.now cells.now ∷ []) held.new }
    ensures room { room_of held.new ≡ room_of held.old }
{
    map_test_law();
    plan.rules_law();
    let mut rest = blocks.iter();
    skip_blocks(&mut rest, first_place(plan, shape, number, plp));
    held.begin(&mut rest, usize::from(shape.count(plp)));
    held.see_cells(plan, shape, plp, number, cells);
}

/// Sees the record of a frame of this shape: holds the blocks of the epoch that begins in it, if one does, and sees
/// which cells of the epoch stand in it.
pub fn see_part(
    plan: &Plan,
    shape: &Shape,
    plp: usize,
    number: u64,
    blocks: &Blocks<'_>,
    cells: &Cells<'_>,
    held: &mut HeldBlocks,
)
    requires inside { plp < length plan.now.plps }
    requires plps { length shape.now.counts ≡ length plan.now.plps }
    requires agrees { shape_agrees plan.now number blocks.now cells.now shape.now ≡ true }
    requires size { held.old.len ≡ block_bytes plan.now plp }
    requires few { vec_len held.old.stands ≡ (plp_at plan.now.plps plp).blocks }
    ensures sees { Sees plan.now plp number (Some (part_with number blocks.now shape.now cells.now)) held.old held.new }
    ensures room { room_of held.new ≡ room_of held.old }
{
    map_test_law();
    plan.rules_law();
    if plan.is_first(plp, number) {
        see_first(plan, shape, plp, number, blocks, cells, held);
    } else if held.goes_on(usize::from(shape.count(plp))) {
        held.see_cells(plan, shape, plp, number, cells);
    } else {
        held.lose();
    }
}
