// Where cells stand, and which cell stands where.
ghost use Rattle.std.specs.Prelude.{ℕ, ◌≡◌, ◌<◌, ◌+◌, ◌-◌, ◌*◌, ◌/◌, ◌%◌, ◌^◌, IfNone, IfSome, length};
ghost use Rattle.std.specs.FinMap.{get};
ghost use Rattle.plp_config.specs.Capacity.{IsPlan};
ghost use Rattle.cell_map.specs.Address.{IsCell, IsCarried, position_of, first_position, address_of};
ghost use Rattle.cell_map.specs.CellMap.{Passes, cell_map};
ghost use Rattle.cell_map.specs.Laws.{StandsAt};
ghost use Rattle.cell_map.specs.Slices.{PlaceOf};

use crate::interleaving::{Place, place_at, position};
use crate::rows::{first_position, plp_in_frame};
use crate::slices::locate;
use plp_config::Plan;
use scheduler::Shape;

/// A cell of a frame.
#[derive(Clone, Copy, Debug, PartialEq, Eq)]
pub struct Cell {
    /// The ordinal of its block: the blocks of which a frame carries cells are counted PLP by PLP, from 0.
    pub ordinal: u32,
    /// Its number in the block, from 0.
    pub cell: u32,
}

// The address of a place in slices of one length.
fn in_slices(start: u32, place: u32, interval: u32, len: u32) -> u32
    requires some { 0 < len }
    requires small { start + place / len * interval + place % len < 2 ^ 32 }
    ensures { result ≡ start + place / len * interval + place % len }
{
    start + place / len * interval + place % len
}

// The place of a cell among those that a frame carries of its PLP, `None` if the frame does not carry it.
fn carried_place(
    plan: &Plan,
    shape: &Shape,
    frame_idx: u8,
    plp: usize,
    block: u32,
    cell: u32,
) -> Option<u32>
    requires plps { length shape.now.counts ≡ length plan.now.plps }
    requires passes { Passes plan.now shape.now }
    requires there { IsCell plan.now shape.now plp block cell }
    ensures none { IfNone result (¬ (IsCarried plan.now shape.now frame_idx plp block cell)) }
    ensures some { IfSome result (λ place. IsCarried plan.now shape.now frame_idx plp block cell
        × (place ≡ position_of plan.now shape.now plp block cell - first_position plan.now shape.now frame_idx plp)) }
{
    let it = plp_in_frame(plan, shape, plp);
    let position = position(it.row.cells, it.row.interleave, it.count, block, cell);
    let place = position.checked_sub(first_position(plan, shape, frame_idx, plp))?;
    if place < it.cells { Some(place) } else { None }
}

// The address of a cell at its place.
fn address_at(
    plan: &Plan,
    shape: &Shape,
    frame_idx: u8,
    plp: usize,
    block: u32,
    cell: u32,
    place: u32,
) -> u32
    requires plps { length shape.now.counts ≡ length plan.now.plps }
    requires passes { Passes plan.now shape.now }
    requires there { IsCarried plan.now shape.now frame_idx plp block cell }
    requires place { place ≡ position_of plan.now shape.now plp block cell - first_position plan.now
        shape.now frame_idx plp }
    ensures value { result ≡ address_of plan.now shape.now frame_idx plp block cell }
    ensures below { result < plan.now.cells }
{
    let it = plp_in_frame(plan, shape, plp);
    let start = shape.start(plp);
    if it.row.slices == 1 {
        return start + place;
    }
    in_slices(start, place, shape.interval(), it.slices.len as u32)
}

/// The address of a cell in a frame, `None` if the frame does not carry it. The frame is told by its number in the
/// superframe.
pub fn address(
    plan: &Plan,
    shape: &Shape,
    frame_idx: u8,
    plp: usize,
    block: u32,
    cell: u32,
) -> Option<u32>
    requires plps { length shape.now.counts ≡ length plan.now.plps }
    requires passes { Passes plan.now shape.now }
    requires there { IsCell plan.now shape.now plp block cell }
    ensures none { IfNone result (¬ (IsCarried plan.now shape.now frame_idx plp block cell)) }
    ensures carried { IfSome result (λ _. IsCarried plan.now shape.now frame_idx plp block cell) }
    ensures value { IfSome result (λ address. address ≡ address_of plan.now shape.now frame_idx plp block cell) }
    ensures below { IfSome result (λ address. address < plan.now.cells) }
{
    let place = carried_place(plan, shape, frame_idx, plp, block, cell)?;
    Some(address_at(plan, shape, frame_idx, plp, block, cell, place))
}

// The cell of a PLP at an address.
fn place_of(plan: &Plan, shape: &Shape, frame_idx: u8, plp: usize, address: u32) -> Option<Place>
    requires plps { length shape.now.counts ≡ length plan.now.plps }
    requires passes { Passes plan.now shape.now }
    requires plp { plp < length plan.now.plps }
    ensures none { IfNone result ((b q : ℕ) → IsCarried plan.now shape.now frame_idx plp b q
        → ¬ (address_of plan.now shape.now frame_idx plp b q ≡ address)) }
    ensures some { IfSome result (λ place. PlaceOf plan.now shape.now frame_idx plp address place) }
    ensures plan { IsPlan plan.now }
{
    let it = plp_in_frame(plan, shape, plp);
    match locate(it.slices, u64::from(shape.interval()), u64::from(address)) {
        Some((slice, inner)) => Some(place_at(
            it.row.cells,
            it.row.interleave,
            it.count,
            first_position(plan, shape, frame_idx, plp) + (slice * it.slices.len + inner) as u32,
        )),
        None => None,
    }
}

// The same of all PLPs.
fn found(plan: &Plan, shape: &Shape, frame_idx: u8, address: u32) -> Option<Cell>
    requires plps { length shape.now.counts ≡ length plan.now.plps }
    requires passes { Passes plan.now shape.now }
    ensures none { IfNone result ((j b q : ℕ) → IsCarried plan.now shape.now frame_idx j b q
        → ¬ (address_of plan.now shape.now frame_idx j b q ≡ address)) }
    ensures some { IfSome result (λ cell. StandsAt plan.now shape.now frame_idx address cell) }
{
    let mut before = 0;
    for plp in 0..shape.len() {
        match place_of(plan, shape, frame_idx, plp, address) {
            Some(place) => {
                return Some(Cell {
                    ordinal: before + place.block,
                    cell: place.cell,
                });
            }
            None => {}
        }
        before += u32::from(shape.count(plp));
    }
    None
}

/// The cell at an address of a frame, `None` if it is dummy. The frame is told by its number in the superframe.
pub fn at(plan: &Plan, shape: &Shape, frame_idx: u8, address: u32) -> Option<Cell>
    requires plps { length shape.now.counts ≡ length plan.now.plps }
    requires passes { Passes plan.now shape.now }
    requires address { address < plan.now.cells }
    ensures { result ≡ get (cell_map plan.now shape.now frame_idx) address }
{
    found(plan, shape, frame_idx, address)
}
