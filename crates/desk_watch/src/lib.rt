//! A run as people follow it: a desk that is watched, how far the run is, and what of it was sent, passed over or
//! damaged, counted from the bytes that pass. Words for people, on standard error: no clause tells them.
#![tactic(auto)]

mod alarm;
mod counts;
mod differing;
mod input;
mod l1_test;
mod moments;
mod notes;
mod packets;
mod progress;
mod records;
mod runs;
mod said;
mod shown;
mod stream_time;
mod t2mi;
mod telling;
mod units;
mod watched;
mod whole_frames;

pub use counts::RunCounts;
pub use shown::{Shown, Told};
pub use stream_time::Seconds;
pub use watched::Watched;
