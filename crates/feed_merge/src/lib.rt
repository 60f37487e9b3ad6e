//! Two T2-MI feeds of one network become one: each frame comes from the first feed that has it (ETSI TS 102 773). A
//! feed is shown frame by frame, as it is held.
#![tactic(auto)]

mod feed;
mod feeding;
mod laws;
mod merger;
mod moments;
mod picking;
mod reading;
mod seen;
mod skipping;

pub use feed::FrameFeed;
pub use feeding::{end_one, feed_one};
pub use laws::{grow_law, picks_law};
pub use merger::Merger;
pub use picking::pick;
pub use reading::{is_idle, least_number, next_step};
pub use seen::{Feed, Pick, Seen};
pub use skipping::skip_if;
