//! The packets of frames become units, with memory of fixed size (ETSI TS 102 773); also those of a frame whose blocks
//! wait in a pool.
#![tactic(auto)]

mod flow;
mod frame;
mod packet;
mod signalling;
mod source;
mod step;
mod units;
mod walk;

pub use flow::Flow;
pub use frame::{PoolFrame, PoolPlace, WalkedPlace};
pub use packet::{write_block, write_l1_current, write_timestamp};
pub use signalling::Signalling;
pub use source::FrameSource;
pub use step::{FrameStep, first_step};
pub use walk::PoolWalk;
