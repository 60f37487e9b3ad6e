// Laws between the definitions, for the crates above. No function here does anything.
ghost use Rattle.linked_pool.specs.Laws.{PlanFits, NextFits, PoolAlone};

use plp_config::{alone_law as tests_alone_law, block_law, spread_law};

/// The blocks of the interleaving frames under way have their chunks.
pub fn plan_fits_law()
    // lists that hold no more than these fill 7 chunks at most for every 2,025 cells of as many frames as the greatest
    // spread
    ensures all { PlanFits }
    // so a pool of as many chunks has room for each next block
    ensures next { NextFits }
{
    block_law();
    spread_law();
}

/// Where each interleaving frame is carried by one frame, pools have the chunks of the cells of a frame.
pub fn alone_law()
    ensures { PoolAlone }
{
    tests_alone_law();
}
