//! T2-MI packets in groups, one for each T2 frame, our six tests of each, and the records of the frames (ETSI TS 102
//! 773, clause 5).
#![tactic(auto)]

mod cause;
mod group;
mod key;
mod l1;
mod laws;
mod map;
mod network;
mod number;
mod sequence;
mod test_laws;
mod waiting;

pub use cause::MuteCause;
pub use group::OpenGroup;
pub use key::{Key, goes_on, is_counted, key_behind};
pub use l1::{is_network_conf, is_of_frame, is_pre, read_dynamic, tell_shape};
pub use laws::{due_law, front_law, groups_law, next_law, numbers_law};
pub use map::map_passes;
pub use network::Network;
pub use number::next_number;
pub use sequence::Sequence;
pub use test_laws::{alone_law, map_test_law, named_law, parts_law, tally_law};
pub use waiting::{Progress, Waiting};
