//! A modulator: a T2-MI stream in, the records of T2 frames out.
#![tactic(auto)]

mod begin;
mod laws;
mod modulating;
mod modulator;
mod settle;
mod waiting;

pub use laws::due_records_law;
pub use modulating::Modulating;
pub use modulator::Modulator;
pub use waiting::is_of;
