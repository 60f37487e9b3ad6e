//! A region replaces one PLP of a T2-MI stream, between files (ETSI TS 102 773).
#![tactic(auto)]

mod laws;
mod machine;
mod phase;
mod running;
mod stop;
mod swapping;

pub use laws::{one_run_law, run_ends_law};
pub use running::run;
pub use stop::{SwapRan, SwapStop};
