//! Blocks of bytes in lists, over chunks of memory that are taken once.
#![tactic(auto)]

mod block;
mod blocks;
mod chains;
mod chunk;
mod laws;
mod pieces;
mod pool;
mod sizes;
mod tables;

pub use block::BlockRef;
pub use blocks::Blocks;
pub use chunk::{CHUNK, CHUNKS_OF_CELLS, FEWEST_CELLS};
pub use laws::{alone_law, plan_fits_law};
pub use pieces::Pieces;
pub use pool::{Pool, PoolFull};
pub use sizes::{frame_chunks, group_chunks};
