//! What files of T2-MI packets and of records are shown as: a line for each.
#![tactic(auto)]

mod count_line;
mod frame_lines;
mod front;
mod laws;
mod packet_line;
mod packet_lines;
mod record_line;
mod show;
mod stop;
mod t2mi_lines;

pub use laws::{packets_end_law, records_end_law};
pub use show::{show_frames, show_packets, show_t2mi};
pub use stop::ShowStop;
