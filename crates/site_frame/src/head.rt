// The head of a record: what it may say.

/// The bytes of a head.
pub const HEAD: usize = 24;

/// The most bytes that may follow a head.
pub const GREATEST_REST: usize = plp_config::GREATEST_REST as usize;

// The fewest bytes that follow the head of a frame: L1-pre, and the numbers of the other three parts.
pub(crate) const LEAST_REST: usize = 35;

// What each head begins with: "T2FR".
pub(crate) const MAGIC: [u8; 4] = [0x54, 0x32, 0x46, 0x52];

// The kinds of records.
pub(crate) const FRAME: u8 = 1;

pub(crate) const MUTED: u8 = 2;
