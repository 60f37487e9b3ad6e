//! Baseband frames in high-efficiency mode, and their scrambling (EN 302 755, clauses 5.1.7 and 5.2.4).
#![tactic(auto)]

mod fault;
mod header;
mod laws;
mod reading;
mod scrambling;
mod writing;

pub use fault::BbFault;
pub use header::{HEADER_BITS, HEADER_BYTES, Header, NO_START};
pub use laws::{
    bit_counts_law, no_refusal_law, one_refusal_law, scramble_twice_law, spelled_or_refused_law,
    written_is_spelled_law,
};
pub use reading::{BbView, read_frame};
pub use scrambling::scramble;
pub use writing::{header_bytes, write_frame};
