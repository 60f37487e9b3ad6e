//! Transport packets (ISO/IEC 13818-1, clause 2.4.3).
#![tactic(auto)]

mod fault;
mod header;
mod laws;
mod packet;
mod sizes;
mod view;
mod writing;

pub use fault::TsFault;
pub use laws::{
    canonical_null_law, fields_told_law, no_refusal_law, null_by_pid_law, one_packet_law,
    one_refusal_law, payload_last_law, spelled_or_refused_law, written_spells_law,
};
pub use packet::TsPacket;
pub use sizes::{PAYLOAD, SIZE, SYNC};
pub use view::{TsView, read};
pub use writing::write_payload;
