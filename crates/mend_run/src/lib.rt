//! One T2-MI stream of several files that have one network's frames, however they are damaged.
#![tactic(auto)]

mod feed_counts;
mod machine;
mod mending;
mod phase;
mod row;
mod running;
mod stop;
mod tally;

pub use running::run;
pub use stop::{MendRan, MendStop};
