//! The modulator of a plan between files: the units of one in, records into the other.
#![tactic(auto)]

mod causes;
mod laws;
mod machine;
mod running;
mod stop;

pub use laws::{one_run_law, run_ends_law};
pub use running::run;
pub use stop::{ModulateRan, ModulateStop};
