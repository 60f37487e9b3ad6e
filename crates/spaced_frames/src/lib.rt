//! Frames sent again as one T2-MI stream, so that who counts them never loses count.
#![tactic(auto)]

mod few;
mod laws;
mod sender;
mod spacer;
mod stage;

pub use laws::spaced_law;
pub use sender::Sender;
pub use spacer::{FARTHEST, Spacer};
