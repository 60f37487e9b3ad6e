// The sizes of the pools that have the blocks of a plan.
ghost use Rattle.std.specs.Prelude.{◌≡◌, ◌<◌, ◌≤◌, ◌^◌};
ghost use Rattle.linked_pool.specs.Fits.{spread_cells as cells_of_spread, frame_chunks, group_chunks};

use crate::chunk::{CHUNKS_OF_CELLS, FEWEST_CELLS};
use plp_config::Plan;

// The cells of as many frames as the greatest spread.
fn spread_cells(plan: &Plan) -> u64
    ensures value { result ≡ cells_of_spread plan.now }
    ensures small { result < 2 ^ 40 }
{
    u64::from(plan.spread_max()) * u64::from(plan.config().cells)
}

/// The chunks of a gateway's pool: 7 for every 2,025 cells of as many frames as the greatest spread. They are enough
/// ([`crate::plan_fits_law`]).
pub fn frame_chunks(plan: &Plan) -> u32
    ensures { result ≡ frame_chunks plan.now }
{
    CHUNKS_OF_CELLS * (spread_cells(plan) / u64::from(FEWEST_CELLS)) as u32
}

/// The chunks of a modulator's pool, which the blocks of a group may need at most: those of a gateway's pool, or up to
/// 6 more, since the cells are not rounded down to 2,025.
pub fn group_chunks(plan: &Plan) -> u32
    ensures value { result ≡ group_chunks plan.now }
    ensures least { frame_chunks plan.now ≤ result }
{
    (u64::from(CHUNKS_OF_CELLS) * spread_cells(plan) / u64::from(FEWEST_CELLS)) as u32
}
