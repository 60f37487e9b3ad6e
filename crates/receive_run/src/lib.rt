//! The receiver of a PLP between files: the records of one in, the packets of its slots into the other.
#![tactic(auto)]

mod laws;
mod machine;
mod record;
mod running;
mod stop;

pub use laws::{one_output_law, one_run_law, run_ends_law};
pub use running::{run, run_joined};
pub use stop::{ReceiveRan, ReceiveStop};
