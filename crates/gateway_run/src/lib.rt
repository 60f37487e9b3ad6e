//! A run of the gateway over the files of a desk.
#![tactic(auto)]

mod apart;
mod frame_gateway;
mod joint;
mod laws;
mod machine;
mod place;
mod running;
mod steps;
mod stop;

pub use laws::{one_run_law, run_ends_law};
pub use running::{run, run_joined};
pub use stop::{GatewayRan, GatewayStop};
