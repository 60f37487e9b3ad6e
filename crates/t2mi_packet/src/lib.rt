//! T2-MI packets (ETSI TS 102 773, clause 5).
#![tactic(auto)]

mod body;
mod fault;
mod fields;
mod laws;
mod packet;
mod packet_view;
mod reading;
mod writing;

pub use fault::{PacketFault, PacketWhy};
pub use laws::{
    complete_law, no_refusal_law, one_packet_law, one_refusal_law, packet_length_law, spell_law,
    spelled_or_refused_law, view_law, written_law,
};
pub use packet::{BlockHead, Body, Packet, Stamp};
pub use packet_view::PacketView;
pub use reading::{LARGEST, needed, read, read_known, view, view_known};
pub use writing::{MOST_BLOCK, begin_block, finish_packet, write};
