//! What the frames and the records of a run are, and what a receiver gives back of them.
#![tactic(auto)]

mod laws;
mod plan_laws;

pub use laws::{alone_law, fit_law, frame_law, record_law, recover_law, stand_law};
pub use plan_laws::id_law;
