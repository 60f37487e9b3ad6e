//! Which frames come next of several feeds of a network, the frames that are made of what these have, and what holds of
//! them whatever the feeds are.
#![tactic(auto)]

mod groups;
mod heads;
mod laws;
mod mender;

pub use heads::{is_silent, least_number, pass_all, waiting};
pub use laws::{near_law, pass_law, rise_law};
pub use mender::{Mender, Source};
