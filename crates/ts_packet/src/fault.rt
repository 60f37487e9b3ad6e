// Why bytes are no transport packet.
use thiserror::Error;

/// Why 188 bytes are no transport packet: the first refusal.
#[derive(Clone, Copy, Debug, PartialEq, Eq, Error)]
pub enum TsFault {
    /// The first byte is not the sync byte.
    #[error("the packet does not begin with the sync byte 0x47")]
    NoSync = 1,
    /// adaptation_field_control is 0, or the adaptation field does not have the length that it asks for.
    #[error("the adaptation field does not fit the packet")]
    BadAdaptation = 2,
}
