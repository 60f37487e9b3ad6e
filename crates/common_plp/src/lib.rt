//! Packets that all streams of a group have in common go once, in its common PLP (EN 302 755, annex D).
#![tactic(auto)]

mod groups;
mod joining;
mod laws;
mod places;
mod splitter;

pub use groups::{Groups, common_of, is_common};
pub use joining::join;
pub use laws::{groups_law, join_law, split_law};
pub use places::{commons, own_place_of};
pub use splitter::Splitter;
