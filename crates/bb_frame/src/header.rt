// The header of a frame.

/// The bytes of a BBHEADER (EN 302 755, clause 5.1.7).
pub const HEADER_BYTES: usize = 10;

/// The bits of a BBHEADER.
pub const HEADER_BITS: usize = 8 * HEADER_BYTES;

/// SYNCD if no user packet begins in the data field (EN 302 755, clause 5.1.7).
pub const NO_START: u16 = 65_535;

/// MODE, which is added to the CRC-8 of the header: the high-efficiency mode.
pub const MODE: u8 = 1;

/// The fields of a BBHEADER in high-efficiency mode (EN 302 755, clause 5.1.7).
#[derive(Clone, Copy, Debug, PartialEq, Eq)]
pub struct Header {
    /// MATYPE-1: TS/GS, SIS/MIS, CCM/ACM, ISSYI, NPD, EXT.
    pub matype1: u8,
    /// MATYPE-2: the PLP_ID, if there are several PLPs.
    pub matype2: u8,
    /// ISSY, three bytes.
    pub issy: u32,
    /// DFL: the length of the data field, in bits.
    pub dfl: u16,
    /// SYNCD: how many bits stand before the first user packet that begins in the data field, or [`NO_START`].
    pub syncd: u16,
}
