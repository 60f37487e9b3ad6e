// A configuration as it is given, before any rule is tried.
use crate::band::Band;
use crate::list::PlpList;

/// Cells of a frame at most, so that the starts and the interval of a shape have 22 bits (EN 302 755, clause 7.2.3.2).
pub const MOST_CELLS: u32 = (1 << 22) - 1;

/// Bits of L1-post besides those of its PLPs, with its CRC_32 (EN 302 755, clause 7.2.3).
pub const L1_POST_BITS: u64 = 213;

/// Bits of a PLP in L1-post.
pub const L1_POST_PLP_BITS: u64 = 137;

/// Bytes of a record behind its head, besides L1-post, blocks and cells: those of L1-pre and of three numbers.
pub const FIXED_REST: u64 = 25 + 4 + 2 + 4;

/// Bytes of a record of a frame at most, behind its head.
pub const GREATEST_REST: u64 = 33_554_432;

/// The configured fields of L1-pre (EN 302 755, clause 7.2.2), as numbers; each fits its bits.
#[derive(Clone, Copy, Debug, PartialEq, Eq)]
pub struct L1Numbers {
    /// BWT_EXT, 1 bit.
    pub bwt_ext: u8,
    /// S2, 4 bits; even.
    pub s2: u8,
    /// GUARD_INTERVAL, 3 bits.
    pub guard: u8,
    /// PAPR, 4 bits.
    pub papr: u8,
    /// L1_MOD, 4 bits.
    pub l1_mod: u8,
    /// L1_COD, 2 bits.
    pub l1_cod: u8,
    /// L1_FEC_TYPE, 2 bits.
    pub l1_fec: u8,
    /// L1_POST_SIZE, 18 bits.
    pub post_size: u32,
    /// PILOT_PATTERN, 4 bits.
    pub pilot: u8,
    /// TX_ID_AVAILABILITY, 8 bits.
    pub tx_id: u8,
    /// NUM_DATA_SYMBOLS, 12 bits.
    pub symbols: u16,
    /// REGEN_FLAG, 3 bits.
    pub regen: u8,
}

/// The configuration of a network. The ranges are those of the rules, which `validate` tries.
#[derive(Debug, Drop)]
pub struct Config {
    /// The bandwidth.
    pub band: Band,
    /// The duration of a frame in elementary periods T; 1,000 to 250 ms.
    pub ticks: u32,
    /// Frames in a superframe, NUM_T2_FRAMES; 2 to 255.
    pub frames: u16,
    /// Cells of a frame that carry PLPs; 2,025 to 4,194,303.
    pub cells: u32,
    /// When frame 0 leaves: whole seconds since 2000-01-01; 1 to 2^39.
    pub seconds: u64,
    /// When frame 0 leaves: subseconds besides, fewer than a second has.
    pub subseconds: u32,
    /// Seconds between UTC and the time scale of the timestamps; below 8,192.
    pub utco: u16,
    /// The PID of the transport packets that carry the T2-MI stream; 16 to 8,190.
    pub pid: u16,
    /// CELL_ID.
    pub cell_id: u16,
    /// NETWORK_ID.
    pub network_id: u16,
    /// T2_SYSTEM_ID.
    pub system_id: u16,
    /// FREQUENCY, in Hz.
    pub frequency: u32,
    /// The configured fields of L1-pre.
    pub l1: L1Numbers,
    /// SUB_SLICES_PER_FRAME; 2 to 6,480 with a PLP of type 2, and 1 without.
    pub sub_slices: u16,
    /// The PLPs; 1 to 255.
    pub plps: PlpList,
}
