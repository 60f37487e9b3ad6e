//! A command line, carried out over the files of the system, and what people are told of it: help, why it is not done,
//! and what came of it, on standard error. No clause tells these words.
#![tactic(auto)]

mod advice;
mod bad_input;
mod command;
mod config_place;
mod counts;
mod front;
mod group;
mod help;
mod named_file;
mod pids;
mod warning;

pub use advice::advise;
pub use command::carry_out;
pub use counts::{counts_of, say_counts};
pub use front::front_of;
