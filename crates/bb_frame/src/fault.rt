// Why bits are no frame.
use thiserror::Error;

/// The first refusal of bits that are no frame. [`BbFault::Mode`] is looked at before [`BbFault::Crc`].
#[derive(Clone, Copy, Debug, PartialEq, Eq, Error)]
pub enum BbFault {
    /// The last byte of the header is neither the CRC-8 of the bytes before it, nor that with MODE added.
    #[error("the CRC-8 of the header differs")]
    Crc = 1,
    /// The last byte of the header is the CRC-8 itself: MODE is that of the normal mode.
    #[error("the frame is not in high-efficiency mode")]
    Mode = 2,
    /// DFL is not a multiple of 8, or more than the bits behind the header.
    #[error("DFL is no whole number of bytes, or more than there are")]
    Length = 3,
    /// SYNCD is not [`crate::NO_START`], and not a multiple of 8 below DFL.
    #[error("SYNCD is no place of a byte in the data field")]
    Sync = 4,
}
