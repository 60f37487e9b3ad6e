//! The group under way of a modulator, of fixed size, its six tests, and the bytes of its record, given out piece by
//! piece.
#![tactic(auto)]

mod behind;
mod blocks;
mod faults;
mod giving;
mod group;
mod l1;
mod laws;
mod named;
mod parts;
mod past;
mod piece;
mod plps;
mod shown;
mod signalling;
mod sizes;
mod stamps;
mod step;
mod writer;
mod writer_laws;

pub use group::PooledGroup;
pub use laws::record_law;
pub use parts::HeldParts;
pub use past::HeldPast;
pub use signalling::Configurable;
pub use sizes::{block_count, rest_len};
pub use writer::Writer;
pub use writer_laws::{short_law, written_law};
