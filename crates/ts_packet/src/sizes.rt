// The sizes of a transport packet (ISO/IEC 13818-1, clause 2.4.3.2).

/// Bytes of a transport packet.
pub const SIZE: usize = 188;

/// Bytes of a payload at most: all but the four of the header.
pub const PAYLOAD: usize = 184;

/// The first byte of each packet.
pub const SYNC: u8 = 0x47;
