//! The map of the cells of a frame (EN 302 755, clauses 6.5 and 8).
#![tactic(auto)]

mod faults;
mod interleaving;
mod laws;
mod places;
mod reading;
mod rows;
mod runs;
mod search;
mod slices;
mod strips;

pub use faults::{MapFault, check};
pub use laws::{alone_law, interleaver_law, map_law, shape_law};
pub use places::{Cell, address, at};
pub use reading::Cells;
pub use strips::{Stretch, Strip};
