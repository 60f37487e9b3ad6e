//! The gateway's core: packets of transport streams become units of transport packets that carry T2-MI; with common
//! PLPs, what all inputs of a group have in a slot goes once (EN 302 755, annex D).
#![tactic(auto)]

mod dynamic;
mod frame;
mod gateway;
mod input;
mod inputs;
mod laws;
mod passing;
mod run_length;
mod slots;
mod split_gateway;

pub use dynamic::write_dynamic;
pub use gateway::Gateway;
pub use input::Input;
pub use laws::{ahead_law, front_law, last_law, not_yet_last_law, units_law};
pub use split_gateway::SplitGateway;
