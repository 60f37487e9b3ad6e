//! The frame that the groups of several feeds make together, each under way with packet_count of each of its blocks.
#![tactic(auto)]

mod blocks;
mod group;
mod laws;
mod layout;
mod made;
mod marks;
mod placing;
mod slots;
mod weaver;

pub use group::MarkedGroup;
pub use laws::placed_law;
pub use marks::Mark;
pub use weaver::Weaver;
