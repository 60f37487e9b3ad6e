//! The outside of a command as the trait `Desk`, and its two kinds: one in memory, and one over real files; and the
//! words of a command line.
#![tactic(auto)]

mod counts;
mod desk;
mod fault;
mod host;
mod host_fault;
mod laws;
mod memory;
mod memory_files;
mod node;
mod note;
mod script;
mod word;

pub use counts::Counts;
pub use desk::Desk;
pub use fault::{DeskFault, FaultKind};
pub use host::HostDesk;
pub use host_fault::{HostFault, Reason};
pub use laws::writes_law;
pub use memory::MemoryDesk;
pub use note::{
    ALONE_HAD_WHOLE, HAD_WHOLE, LACK_PACKET, MOST_FEEDS, NONE_HAD_WHOLE, NOT_SENT, Note,
    OTHER_MOMENT,
};
pub use script::CallKind;
pub use word::Word;
