// Why frames are muted.

use plp_config::Moment;
use t2mi_packet::Stamp;
use thiserror::Error;

/// Why a frame is muted.
#[derive(Clone, Copy, Debug, PartialEq, Eq, Error)]
pub enum MuteCause {
    /// No packet of the frame came.
    #[error("no packet of the frame came")]
    Gap,
    /// A baseband frame, the L1-current or the timestamp of the frame is missing, or there is a baseband frame too
    /// many, one of a length that its PLP does not have, or one of no PLP.
    #[error("a packet of the frame is missing")]
    PacketMissing,
    /// The L1-current is not that of the configuration and the frame, or two of them differ.
    #[error("the L1 signalling is not that of the configuration")]
    L1Refused,
    /// By the dynamic part that came a PLP has more blocks than the configuration allows it, a cell has an address
    /// outside the frame, or two cells have one address.
    #[error("the cells of the frame do not stand apart")]
    MapRefused,
    /// The baseband frames of the group, as far as they have the right length, need more chunks of memory than the pool
    /// has.
    #[error("its baseband frames need {need} chunks, and there are {spare}")]
    PoolFull {
        /// The chunks that they need.
        need: u64,
        /// All chunks of the pool, free or not.
        spare: u64,
    },
    /// A timestamp tells another moment than the frame's emission, or another bandwidth than the configuration's.
    #[error("a timestamp tells another moment than the emission of the frame")]
    TimeDisagrees {
        /// The first timestamp that does.
        stamp: Stamp,
        /// The emission of the frame.
        counted: Moment,
    },
}
