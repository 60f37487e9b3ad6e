// Why bits are no part of L1 signalling.
use thiserror::Error;

/// The first refusal, in the order of the fields.
#[derive(Clone, Copy, Debug, PartialEq, Eq, Error)]
pub enum L1Fault {
    /// A field is not there in full.
    #[error("a field is cut off: {left} bits are left")]
    Short {
        /// The bits left at the front of the field.
        left: u64,
    },
    /// CRC_32 is not that of the bits before it.
    #[error("CRC_32 is {read:08x}, and {counted:08x} was counted")]
    Crc {
        read: u32,
        counted: u32,
    },
    /// A field has a value that this profile does not have.
    #[error("field {field} has a value that is not supported")]
    Unsupported {
        /// The number of the field's row.
        field: u8,
    },
    /// L1_POST_INFO_SIZE does not go with NUM_PLP.
    #[error("L1_POST_INFO_SIZE is {told}, and {counted} bits were counted")]
    Size {
        told: u32,
        counted: u32,
    },
    /// No memory was found.
    #[error("out of memory")]
    OutOfMemory,
}
