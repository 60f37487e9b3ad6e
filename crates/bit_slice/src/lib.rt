//! Slices of bits over borrowed bytes, sources and sinks of bits, the CRCs of bits, and the sequence of a scrambler.
#![tactic(auto)]

mod buf;
mod count;
mod crc_32;
mod crc_8;
mod crc_sink;
mod filling;
mod fixed;
mod joined;
mod joined_reader;
mod laws;
mod memory;
mod prbs;
mod prbs_blocks;
mod reader;
mod same;
mod sink;
mod slice;
mod source;
mod tables;
mod window;
mod written;

pub use buf::BitBuf;
pub use count::BitCount;
pub use crc_8::crc8;
pub use crc_32::crc32;
pub use crc_sink::CrcSink;
pub use fixed::FixedBits;
pub use joined::{Joined, put_joined};
pub use joined_reader::JoinedReader;
pub use laws::{crc8_law, crc32_law, prbs_law, puts_law, remainder_law, stops_law, wrapped_law};
pub use memory::OutOfMemory;
pub use prbs::Prbs;
pub use prbs_blocks::PrbsBlocks;
pub use reader::BitReader;
pub use same::same_bits;
pub use sink::{BitSink, SinkFault};
pub use slice::BitSlice;
pub use source::{BitSource, Short};
