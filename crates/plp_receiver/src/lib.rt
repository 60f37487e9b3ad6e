//! The packets of a PLP, from the records of its frames, each in its slot until that is due (EN 302 755, clause 5.1),
//! also in step with those of the common PLP of its group (annex D).
#![tactic(auto)]

mod assembler;
mod block;
mod blocks;
mod both;
mod copying;
mod counting;
mod held;
mod joined_receiver;
mod joint_laws;
mod laws;
mod mark;
mod parts;
mod plp_rule;
mod readable;
mod receiver;
mod slot_laws;
mod slot_rule;
mod slots;
mod standing;
mod taking;
mod times;
mod window;

pub use block::TakenBlock;
pub use joined_receiver::JoinedReceiver;
pub use joint_laws::joined_law;
pub use laws::{alone_law, readback_law};
pub use receiver::Receiver;
pub use slot_laws::{complete_law, one_frame_law, slots_readback_law};
pub use slot_rule::SlotRule;
pub use slots::PacketSlots;
