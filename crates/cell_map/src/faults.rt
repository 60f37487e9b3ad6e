// Which shapes have a cell map.
ghost use Rattle.std.specs.Prelude.{ℕ, ◌≡◌, ◌<◌, ◌≤◌, ◌↔◌, IsTrue, IsOk, IfSome, IfNone, IfErr, length};
ghost use Rattle.cell_map.specs.CellMap.{IsBeyond, Shares, Passes, Faults};

use crate::rows::plp_in_frame;
use crate::slices::slices_meet;
use plp_config::Plan;
use scheduler::Shape;
use thiserror::Error;

/// Why a shape has no cell map. PLPs are named by their places, from 0.
#[derive(Clone, Copy, Debug, PartialEq, Eq, Error)]
pub enum MapFault {
    /// The first PLP with more blocks than it may have, or with a cell beyond the frame's end.
    #[error("the PLP of place {plp} has too many blocks, or a cell beyond the end of the frame")]
    Beyond { plp: u8 },
    /// The first two PLPs of which two cells share an address; one PLP twice if both are its own.
    #[error("cells of the PLPs of places {first} and {second} share an address")]
    Overlap { first: u8, second: u8 },
}

// Whether a PLP has too many blocks, or a cell beyond the frame's end.
fn is_beyond(plan: &Plan, shape: &Shape, plp: usize) -> bool
    requires plps { length shape.now.counts ≡ length plan.now.plps }
    requires plp { plp < length plan.now.plps }
    ensures { IsTrue result ↔ IsBeyond plan.now shape.now plp }
{
    let it = plp_in_frame(plan, shape, plp);
    if it.count > it.row.blocks {
        return true;
    }
    if it.slices.len == 0 {
        return false;
    }
    it.slices.start + (it.slices.count - 1) * u64::from(shape.interval()) + it.slices.len
        > u64::from(plan.config().cells)
}

// Whether a cell of the one PLP and another cell of the other have one address.
fn shares(plan: &Plan, shape: &Shape, first: usize, second: usize) -> bool
    requires plps { length shape.now.counts ≡ length plan.now.plps }
    requires first { first < length plan.now.plps }
    requires second { second < length plan.now.plps }
    ensures { IsTrue result ↔ Shares plan.now shape.now first second }
{
    let one = plp_in_frame(plan, shape, first);
    let interval = u64::from(shape.interval());
    if first == second {
        if one.slices.count == 1 {
            return false;
        }
        return interval < one.slices.len;
    }
    let other = plp_in_frame(plan, shape, second);
    if one.slices.len == 0 {
        return false;
    }
    if other.slices.len == 0 {
        return false;
    }
    slices_meet(one.slices, other.slices, interval)
}

// The first PLP, from `first` on, that shares an address with it.
fn partner(plan: &Plan, shape: &Shape, first: u8) -> Option<u8>
    requires plps { length shape.now.counts ≡ length plan.now.plps }
    requires first { first < length plan.now.plps }
    ensures none { IfNone result ((k : ℕ) → first ≤ k → k < length plan.now.plps
        → ¬ (Shares plan.now shape.now first k)) }
    ensures some { IfSome result (λ k. (first ≤ k) × (k < length plan.now.plps) × Shares plan.now shape.now first k
        × ((j : ℕ) → first ≤ j → j < k → ¬ (Shares plan.now shape.now first j))) }
{
    for k in first..plan.config().plps.len() as u8 {
        if shares(plan, shape, usize::from(first), usize::from(k)) {
            return Some(k);
        }
    }
    None
}

/// Whether a shape has a cell map. Any shape may be asked: its numbers may have come from anywhere.
pub fn check(plan: &Plan, shape: &Shape) -> Result<(), MapFault>
    requires plps { length shape.now.counts ≡ length plan.now.plps }
    ensures ok { IsOk result ↔ Passes plan.now shape.now }
    ensures fault { IfErr result (Faults plan.now shape.now) }
{
    let plps = plan.config().plps.len() as u8;
    for plp in 0..plps {
        if is_beyond(plan, shape, usize::from(plp)) {
            return Err(MapFault::Beyond { plp });
        }
    }
    for first in 0..plps {
        match partner(plan, shape, first) {
            Some(second) => return Err(MapFault::Overlap { first, second }),
            None => {}
        }
    }
    Ok(())
}
