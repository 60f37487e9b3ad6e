//! The merger of a network between files: two T2-MI streams in, one out (ETSI TS 102 773).
#![tactic(auto)]

mod laws;
mod machine;
mod merging;
mod phase;
mod running;
mod sending;
mod stop;
mod taking;

pub use laws::{one_run_law, run_ends_law};
pub use running::run;
pub use stop::{MergeRan, MergeStop};
