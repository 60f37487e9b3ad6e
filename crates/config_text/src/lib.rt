//! The text that configures a network, read and written.
#![tactic(auto)]

mod decimal;
mod draft;
mod fault;
mod field;
mod laws;
mod line;
mod lines;
mod parts;
mod reading;
mod spelling;
mod values;
mod words;
mod writing;

pub use decimal::number_within;
pub use fault::{TextFault, TextWhy};
pub use laws::{decided_law, not_refused_law, refused_once_law, spelled_once_law};
pub use reading::{LONGEST_TEXT, read};
pub use writing::{band_word, write};
