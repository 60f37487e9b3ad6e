//! T2-MI packets in transport packets, both ways (ETSI TS 102 773, clause 6).
#![tactic(auto)]

mod candidate;
mod first_pid;
mod grammar;
mod laws;
mod piper;
mod put;
mod skipping;
mod survivor_laws;
mod unit;
mod unpiper;

pub use first_pid::{first_pid_law, unit_pid};
pub use laws::{
    accepted_front_law, any_cutting_law, complete_law, disjoint_law, events_push_law,
    starts_found_law, survives_law, tally_push_law, unit_reads_law, whole_packets_law,
};
pub use piper::Piper;
pub use skipping::{few_packets_law, packet_places_law, skip_law};
pub use survivor_laws::{rise_law, stand_law, survivor_law, undamaged_law};
pub use unit::first_unit;
pub use unpiper::Unpiper;
