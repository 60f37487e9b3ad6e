//! The events of a feed of a T2-MI stream: the frames whose packets came, each with its number, and its silences.
#![tactic(auto)]

mod course;
mod feed;
mod frames;
mod idle;
mod settling;

pub use course::Head;
pub use feed::EventFeed;
