// One physical layer pipe, and the tables of its blocks.
ghost use Rattle.std.specs.Prelude.{◌≡◌, ◌≤◌};
ghost use Rattle.plp_config.specs.Plps.{type_number};
ghost use Rattle.plp_config.specs.Tables.{plp_cod, plp_mod, plp_fec_type, info_bits, cells_per_block};

/// Bits of a baseband frame at most, those of a normal block at rate 5/6.
pub const MOST_INFO_BITS: u32 = 53_840;

/// Bytes of a baseband frame at most, `MOST_INFO_BITS / 8`.
pub const MOST_BLOCK_BYTES: u32 = 6_730;

/// Bytes of the data field of a baseband frame at most, behind a header of ten: `MOST_BLOCK_BYTES - 10`.
pub const MOST_FIELD_BYTES: u32 = MOST_BLOCK_BYTES - 10;

/// Blocks of a PLP in an interleaving frame at most: PLP_NUM_BLOCKS_MAX has ten bits (EN 302 755, clause 7.2.3.1).
pub const MOST_BLOCKS: u16 = 1_023;

/// Bytes of the data fields of a PLP in an interleaving frame at most, `MOST_BLOCKS * MOST_FIELD_BYTES`.
pub const MOST_CAPACITY: u32 = MOST_BLOCKS as u32 * MOST_FIELD_BYTES;

/// How a PLP lies in a frame. Its number is PLP_TYPE (EN 302 755, clause 7.2.3.1), and PLPs stand in this order.
#[derive(Clone, Copy, Debug, PartialEq, Eq)]
pub enum PlpType {
    /// One slice in each frame, with what all PLPs of its group have in common.
    Common = 0,
    /// One slice in each frame.
    Type1 = 1,
    /// Several sub-slices in each frame.
    Type2 = 2,
}

impl PlpType {
    /// PLP_TYPE.
    pub fn number(self) -> u8
        ensures value { result ≡ type_number self }
        ensures small { result ≤ 2 }
    {
        self as u8
    }
}

/// The code rate of the LDPC code (EN 302 755, clause 6.1), in the order of PLP_COD.
#[derive(Clone, Copy, Debug, PartialEq, Eq)]
pub enum Rate {
    /// 1/2.
    R1_2,
    /// 3/5.
    R3_5,
    /// 2/3.
    R2_3,
    /// 3/4.
    R3_4,
    /// 4/5.
    R4_5,
    /// 5/6.
    R5_6,
}

impl Rate {
    /// PLP_COD (EN 302 755, clause 7.2.3.1).
    pub fn plp_cod(self) -> u8
        ensures value { result ≡ plp_cod self }
        ensures small { result ≤ 5 }
    {
        self as u8
    }
}

/// The constellation of the cells (EN 302 755, clause 6.2), in the order of PLP_MOD.
#[derive(Clone, Copy, Debug, PartialEq, Eq)]
pub enum Modulation {
    /// QPSK, 2 bits a cell.
    Qpsk,
    /// 16-QAM, 4 bits a cell.
    Qam16,
    /// 64-QAM, 6 bits a cell.
    Qam64,
    /// 256-QAM, 8 bits a cell.
    Qam256,
}

impl Modulation {
    /// PLP_MOD (EN 302 755, clause 7.2.3.1).
    pub fn plp_mod(self) -> u8
        ensures value { result ≡ plp_mod self }
        ensures small { result ≤ 3 }
    {
        self as u8
    }
}

/// The size of a coded block (EN 302 755, clause 6.1), in the order of PLP_FEC_TYPE.
#[derive(Clone, Copy, Debug, PartialEq, Eq)]
pub enum FecSize {
    /// 16,200 bits.
    Short,
    /// 64,800 bits.
    Normal,
}

impl FecSize {
    /// PLP_FEC_TYPE (EN 302 755, clause 7.2.3.1).
    pub fn plp_fec_type(self) -> u8
        ensures value { result ≡ plp_fec_type self }
        ensures small { result ≤ 1 }
    {
        self as u8
    }
}

/// One PLP of a network.
#[derive(Clone, Copy, Debug, PartialEq, Eq)]
pub struct Plp {
    /// PLP_ID; no two PLPs have one.
    pub id: u8,
    /// PLP_TYPE.
    pub plp_type: PlpType,
    /// PLP_GROUP_ID.
    pub group: u8,
    /// PLP_COD.
    pub rate: Rate,
    /// PLP_MOD.
    pub modulation: Modulation,
    /// PLP_FEC_TYPE.
    pub fec: FecSize,
    /// Whether the constellation is rotated.
    pub rotation: bool,
    /// The greatest number of blocks in an interleaving frame, PLP_NUM_BLOCKS_MAX; 1 to 1,023.
    pub blocks: u16,
    /// TI-blocks in an interleaving frame, or 0 for no time interleaving; at most `blocks`, and at most 255, and 1 with
    /// a spread above 1.
    pub interleave: u16,
    /// Whether null packets are deleted.
    pub delete: bool,
    /// The rate of the transport stream, in bits per second; 1 to 72,000,000.
    pub bits_per_second: u32,
    /// The frames that carry an interleaving frame; 1 to 255, and a divisor of the frames of a superframe.
    pub spread: u8,
}

impl Plp {
    // Bits of a baseband frame, Kbch.
    pub(crate) fn info_bits(&self) -> u32
        ensures value { result ≡ info_bits self.now.fec self.now.rate }
        ensures least { 7032 ≤ result }
        ensures greatest { result ≤ MOST_INFO_BITS }
    {
        match (self.fec, self.rate) {
            (FecSize::Normal, Rate::R1_2) => 32_208,
            (FecSize::Normal, Rate::R3_5) => 38_688,
            (FecSize::Normal, Rate::R2_3) => 43_040,
            (FecSize::Normal, Rate::R3_4) => 48_408,
            (FecSize::Normal, Rate::R4_5) => 51_648,
            (FecSize::Normal, Rate::R5_6) => 53_840,
            (FecSize::Short, Rate::R1_2) => 7_032,
            (FecSize::Short, Rate::R3_5) => 9_552,
            (FecSize::Short, Rate::R2_3) => 10_632,
            (FecSize::Short, Rate::R3_4) => 11_712,
            (FecSize::Short, Rate::R4_5) => 12_432,
            (FecSize::Short, Rate::R5_6) => 13_152,
        }
    }

    // Cells of a block.
    pub(crate) fn block_cells(&self) -> u32
        ensures value { result ≡ cells_per_block self.now.fec self.now.modulation }
        ensures least { 2025 ≤ result }
        ensures greatest { result ≤ 32400 }
    {
        match (self.fec, self.modulation) {
            (FecSize::Normal, Modulation::Qpsk) => 32_400,
            (FecSize::Normal, Modulation::Qam16) => 16_200,
            (FecSize::Normal, Modulation::Qam64) => 10_800,
            (FecSize::Normal, Modulation::Qam256) => 8_100,
            (FecSize::Short, Modulation::Qpsk) => 8_100,
            (FecSize::Short, Modulation::Qam16) => 4_050,
            (FecSize::Short, Modulation::Qam64) => 2_700,
            (FecSize::Short, Modulation::Qam256) => 2_025,
        }
    }
}
