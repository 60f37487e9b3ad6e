//! A trial of a whole network: inputs drawn from a number, the gateway, a modulator that reads all, one that loses
//! units, and all receivers.
#![tactic(auto)]

mod counts;
mod draws;
mod input;
mod lines;
mod losses;
mod network;
mod stages;
mod stop;
mod trial;

pub use draws::Draws;
pub use input::trial_input;
pub use losses::kept_units;
pub use network::trial_plan;
pub use stop::TrialStop;
pub use trial::trial_text;
