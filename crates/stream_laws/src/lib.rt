//! The packets of a run as they are sent frame by frame, what is written of them if units are lost or altered, and what
//! comes of frames of records that are sent again (EN 302 755, ETSI TS 102 773). It has no code.
#![tactic(auto)]

mod damage_laws;
mod formed_laws;
mod frame_laws;
mod plan_laws;
mod remade_laws;
mod unit_laws;

pub use damage_laws::{group_law, near_law, number_law, record_law, whole_law};
pub use formed_laws::{back_law, formed_law, shown_law};
pub use frame_laws::{frame_law, run_law, sent_law, stream_law, tests_law, undamaged_law};
pub use plan_laws::{plan_law, type_law};
pub use remade_laws::{again_law, arrive_law, remade_law};
pub use unit_laws::{honest_law, kept_law};
