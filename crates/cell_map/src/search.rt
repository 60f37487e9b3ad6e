// What stands at an address, found from nothing but the shape.
ghost use Rattle.std.specs.Prelude.{ℕ, ◌≡◌, ◌+◌, ◌*◌, ◌<◌, ◌≤◌, ◌^◌, IfNone, IfSome, length, sum, take};
ghost use Rattle.plp_config.specs.Capacity.{IsPlan};
ghost use Rattle.cell_map.specs.Address.{IsCarried, address_of};
ghost use Rattle.cell_map.specs.CellMap.{Passes};
ghost use Rattle.cell_map.specs.Runs.{RunsAt, IsMark, LeavesFree, AreDummy, HasCell};

use crate::rows::{first_position, plp_in_frame};
use crate::runs::{Run, run_at};
use crate::slices::{free, locate};
use plp_config::Plan;
use scheduler::Shape;

// The run of a PLP at an address.
fn run_of(
    plan: &Plan,
    shape: &Shape,
    frame_idx: u8,
    plp: usize,
    before: u32,
    address: u32,
) -> Option<Run>
    requires plps { length shape.now.counts ≡ length plan.now.plps }
    requires passes { Passes plan.now shape.now }
    requires plp { plp < length plan.now.plps }
    requires before { before ≡ sum (take plp shape.now.counts) }
    requires small { before < 2 ^ 20 }
    ensures none { IfNone result ((b q : ℕ) → IsCarried plan.now shape.now frame_idx plp b q
        → ¬ (address_of plan.now shape.now frame_idx plp b q ≡ address)) }
    ensures some { IfSome result (λ run. RunsAt plan.now shape.now frame_idx address run) }
    ensures plan { IsPlan plan.now }
{
    let it = plp_in_frame(plan, shape, plp);
    match locate(it.slices, u64::from(shape.interval()), u64::from(address)) {
        Some((slice, inner)) => Some(run_at(
            it.row.cells,
            it.row.interleave,
            it.count,
            before,
            first_position(plan, shape, frame_idx, plp) + (slice * it.slices.len + inner) as u32,
            (it.slices.len - inner) as u32,
        )),
        None => None,
    }
}

/// A PLP, and how many blocks those before it have: where a search begins.
#[derive(Clone, Copy)]
pub struct Mark {
    pub plp: usize,
    pub before: u32,
}

/// A mark before the first PLP.
pub const FIRST_PLP: Mark = Mark { plp: 0, before: 0 };

/// A run, and its PLP.
#[derive(Clone, Copy)]
pub struct Found {
    pub run: Run,
    pub mark: Mark,
}

// The run at an address, of the PLPs from a mark on, up to a place.
fn find_among(
    plan: &Plan,
    shape: &Shape,
    frame_idx: u8,
    address: u32,
    first: Mark,
    end: usize,
) -> Option<Found>
    requires plps { length shape.now.counts ≡ length plan.now.plps }
    requires passes { Passes plan.now shape.now }
    requires first { IsMark plan.now shape.now first }
    requires order { first.plp ≤ end }
    requires end { end ≤ length plan.now.plps }
    ensures none { IfNone result ((j b q : ℕ) → first.plp ≤ j → j < end → IsCarried plan.now shape.now frame_idx j b q
        → ¬ (address_of plan.now shape.now frame_idx j b q ≡ address)) }
    ensures some { IfSome result (λ found. RunsAt plan.now shape.now frame_idx address found.run
        × IsMark plan.now shape.now found.mark) }
{
    let _config = plan.config();
    let mut before = first.before;
    for plp in first.plp..end {
        match run_of(plan, shape, frame_idx, plp, before, address) {
            Some(run) => {
                return Some(Found {
                    run,
                    mark: Mark { plp, before },
                });
            }
            None => {}
        }
        before += u32::from(shape.count(plp));
    }
    None
}

/// The same of all PLPs, those from a mark on first.
pub fn find(plan: &Plan, shape: &Shape, frame_idx: u8, address: u32, first: Mark) -> Option<Found>
    requires plps { length shape.now.counts ≡ length plan.now.plps }
    requires passes { Passes plan.now shape.now }
    requires first { IsMark plan.now shape.now first }
    ensures none { IfNone result ((j b q : ℕ) → IsCarried plan.now shape.now frame_idx j b q
        → ¬ (address_of plan.now shape.now frame_idx j b q ≡ address)) }
    ensures some { IfSome result (λ found. RunsAt plan.now shape.now frame_idx address found.run
        × IsMark plan.now shape.now found.mark) }
{
    match find_among(
        plan,
        shape,
        frame_idx,
        address,
        first,
        plan.config().plps.len(),
    ) {
        Some(found) => Some(found),
        None => find_among(plan, shape, frame_idx, address, FIRST_PLP, first.plp),
    }
}

// How many addresses from one on, `limit` at most, have no cell of a PLP: the greatest such number.
fn free_of(plan: &Plan, shape: &Shape, frame_idx: u8, plp: usize, address: u32, limit: u32) -> u32
    requires plps { length shape.now.counts ≡ length plan.now.plps }
    requires passes { Passes plan.now shape.now }
    requires plp { plp < length plan.now.plps }
    ensures most { result ≤ limit }
    ensures free { LeavesFree plan.now shape.now frame_idx plp address result }
    ensures greatest { result < limit → HasCell plan.now shape.now frame_idx plp (address + result) }
{
    let it = plp_in_frame(plan, shape, plp);
    let interval = u64::from(shape.interval());
    free(it.slices, interval, u64::from(address), u64::from(limit)) as u32
}

/// How many addresses from one on are dummy: up to the next cell, or to the end of the frame.
pub fn dummies(plan: &Plan, shape: &Shape, frame_idx: u8, address: u32) -> u32
    requires plps { length shape.now.counts ≡ length plan.now.plps }
    requires passes { Passes plan.now shape.now }
    requires inside { address ≤ plan.now.cells }
    ensures dummy { AreDummy plan.now shape.now frame_idx address result }
    ensures greatest { address + result < plan.now.cells → (plp : ℕ) × HasCell plan.now shape.now frame_idx plp
        (address + result) }
{
    let mut free = plan.config().cells - address;
    for plp in 0..plan.config().plps.len() {
        free = free_of(plan, shape, frame_idx, plp, address, free);
    }
    free
}
