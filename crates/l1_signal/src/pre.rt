// L1-pre.
ghost use Rattle.std.specs.Prelude.{◌≡◌, Ok, Err, IfOk, IfErr, OnOk, []};
ghost use Rattle.bit_slice.specs.Crc.{crc32_of};
ghost use Rattle.bit_slice.specs.Sink.{Puts, Stops};
ghost use Rattle.l1_signal.specs.Fields.{values, spelling, Fits, HasGiven};
ghost use Rattle.l1_signal.specs.L1Pre.{pre_rows, pre_table, pre_at, pre_reading, pre_bits, PreFits};
ghost use Rattle.l1_signal.specs.Places.{AreSmall};

use crate::L1Fault;
use crate::crc::read_crc;
use crate::fields::{Demand, Field, put_fields, read_fields};
use bit_slice::{BitCount, BitSink, BitSource, CrcSink, SinkFault, stops_law};

#[rattlefmt::skip]
const PRE: [Field; 27] = [
    Field { number: 1, width: 8, demand: Demand::Only(0) },
    Field { number: 2, width: 1, demand: Demand::Any },
    Field { number: 3, width: 3, demand: Demand::Only(0) },
    Field { number: 4, width: 4, demand: Demand::Even },
    Field { number: 5, width: 1, demand: Demand::Only(0) },
    Field { number: 6, width: 3, demand: Demand::Any },
    Field { number: 7, width: 4, demand: Demand::Any },
    Field { number: 8, width: 4, demand: Demand::Any },
    Field { number: 9, width: 2, demand: Demand::Any },
    Field { number: 10, width: 2, demand: Demand::Any },
    Field { number: 11, width: 18, demand: Demand::Any },
    Field { number: 12, width: 18, demand: Demand::Any },
    Field { number: 13, width: 4, demand: Demand::Any },
    Field { number: 14, width: 8, demand: Demand::Any },
    Field { number: 15, width: 16, demand: Demand::Any },
    Field { number: 16, width: 16, demand: Demand::Any },
    Field { number: 17, width: 16, demand: Demand::Any },
    Field { number: 18, width: 8, demand: Demand::Any },
    Field { number: 19, width: 12, demand: Demand::Any },
    Field { number: 20, width: 3, demand: Demand::Any },
    Field { number: 21, width: 1, demand: Demand::Only(0) },
    Field { number: 22, width: 3, demand: Demand::Only(1) },
    Field { number: 23, width: 3, demand: Demand::Only(0) },
    Field { number: 24, width: 4, demand: Demand::Any },
    Field { number: 25, width: 1, demand: Demand::Only(0) },
    Field { number: 26, width: 1, demand: Demand::Only(0) },
    Field { number: 27, width: 4, demand: Demand::Any },
];

/// L1-pre (EN 302 755, clause 7.2.2).
#[derive(Clone, Copy, Debug, PartialEq, Eq)]
pub struct L1Pre {
    /// TYPE, 8 bits.
    pub stream_type: u8,
    /// BWT_EXT, 1 bit.
    pub bwt_ext: u8,
    /// S1, 3 bits.
    pub s1: u8,
    /// S2, 4 bits.
    pub s2: u8,
    /// L1_REPETITION_FLAG, 1 bit.
    pub l1_repetition_flag: u8,
    /// GUARD_INTERVAL, 3 bits.
    pub guard_interval: u8,
    /// PAPR, 4 bits.
    pub papr: u8,
    /// L1_MOD, 4 bits.
    pub l1_mod: u8,
    /// L1_COD, 2 bits.
    pub l1_cod: u8,
    /// L1_FEC_TYPE, 2 bits.
    pub l1_fec_type: u8,
    /// L1_POST_SIZE, 18 bits.
    pub l1_post_size: u32,
    /// L1_POST_INFO_SIZE, 18 bits.
    pub l1_post_info_size: u32,
    /// PILOT_PATTERN, 4 bits.
    pub pilot_pattern: u8,
    /// TX_ID_AVAILABILITY, 8 bits.
    pub tx_id_availability: u8,
    /// CELL_ID, 16 bits.
    pub cell_id: u16,
    /// NETWORK_ID, 16 bits.
    pub network_id: u16,
    /// T2_SYSTEM_ID, 16 bits.
    pub t2_system_id: u16,
    /// NUM_T2_FRAMES, 8 bits.
    pub num_t2_frames: u8,
    /// NUM_DATA_SYMBOLS, 12 bits.
    pub num_data_symbols: u16,
    /// REGEN_FLAG, 3 bits.
    pub regen_flag: u8,
    /// L1_POST_EXTENSION, 1 bit.
    pub l1_post_extension: u8,
    /// NUM_RF, 3 bits.
    pub num_rf: u8,
    /// CURRENT_RF_IDX, 3 bits.
    pub current_rf_idx: u8,
    /// T2_VERSION, 4 bits.
    pub t2_version: u8,
    /// L1_POST_SCRAMBLED, 1 bit.
    pub l1_post_scrambled: u8,
    /// T2_BASE_LITE, 1 bit.
    pub t2_base_lite: u8,
}

fn pre_at(values: &[u64; 27]) -> L1Pre
    requires { AreSmall 0 pre_table values.now }
    ensures { result ≡ pre_at values.now }
{
    L1Pre {
        stream_type: values[0] as u8,
        bwt_ext: values[1] as u8,
        s1: values[2] as u8,
        s2: values[3] as u8,
        l1_repetition_flag: values[4] as u8,
        guard_interval: values[5] as u8,
        papr: values[6] as u8,
        l1_mod: values[7] as u8,
        l1_cod: values[8] as u8,
        l1_fec_type: values[9] as u8,
        l1_post_size: values[10] as u32,
        l1_post_info_size: values[11] as u32,
        pilot_pattern: values[12] as u8,
        tx_id_availability: values[13] as u8,
        cell_id: values[14] as u16,
        network_id: values[15] as u16,
        t2_system_id: values[16] as u16,
        num_t2_frames: values[17] as u8,
        num_data_symbols: values[18] as u16,
        regen_flag: values[19] as u8,
        l1_post_extension: values[20] as u8,
        num_rf: values[21] as u8,
        current_rf_idx: values[22] as u8,
        t2_version: values[23] as u8,
        l1_post_scrambled: values[24] as u8,
        t2_base_lite: values[25] as u8,
    }
}

fn pre_values(pre: &L1Pre) -> [u64; 27]
    ensures { result ≡ values pre_rows pre.now [] }
{
    [
        u64::from(pre.stream_type),
        u64::from(pre.bwt_ext),
        u64::from(pre.s1),
        u64::from(pre.s2),
        u64::from(pre.l1_repetition_flag),
        u64::from(pre.guard_interval),
        u64::from(pre.papr),
        u64::from(pre.l1_mod),
        u64::from(pre.l1_cod),
        u64::from(pre.l1_fec_type),
        u64::from(pre.l1_post_size),
        u64::from(pre.l1_post_info_size),
        u64::from(pre.pilot_pattern),
        u64::from(pre.tx_id_availability),
        u64::from(pre.cell_id),
        u64::from(pre.network_id),
        u64::from(pre.t2_system_id),
        u64::from(pre.num_t2_frames),
        u64::from(pre.num_data_symbols),
        u64::from(pre.regen_flag),
        u64::from(pre.l1_post_extension),
        u64::from(pre.num_rf),
        u64::from(pre.current_rf_idx),
        u64::from(pre.t2_version),
        u64::from(pre.l1_post_scrambled),
        u64::from(pre.t2_base_lite),
        0,
    ]
}

// The CRC-32 of L1-pre with these values, those of RESERVED among them.
fn pre_crc(values: &[u64; 27]) -> u32
    requires { Fits pre_table values.now }
    ensures { result ≡ crc32_of (spelling pre_table values.now) }
{
    stops_law();
    let mut sink = CrcSink::new(BitCount::new());
    put_fields(&mut sink, &PRE, values).unwrap();
    sink.crc()
}

/// Reads L1-pre, `with_crc` its CRC_32 too, up to the first refusal in the order of the fields.
pub fn read_pre<'a, R: BitSource<'a>>(source: &mut R, with_crc: bool) -> Result<L1Pre, L1Fault>
    ensures ok { IfOk result (λ pre. pre_reading with_crc (R.left source.old) ≡ Ok (pre, R.left source.new)) }
    ensures fault { IfErr result (λ e. pre_reading with_crc (R.left source.old) ≡ Err e) }
    ensures fits { IfOk result PreFits }
    ensures given { HasGiven (R.left source.old) (R.left source.new) }
{
    let mut values = [0; 27];
    read_fields(source, &PRE, &mut values)?;
    let pre = pre_at(&values);
    if !with_crc {
        return Ok(pre);
    }
    read_crc(source, pre_crc(&values))?;
    Ok(pre)
}

/// Appends L1-pre without CRC_32, [`crate::PRE_BITS`] bits. After a fault a part of it, from its start, stands in the
/// sink.
pub fn write_pre<S: BitSink>(sink: &mut S, pre: &L1Pre) -> Result<(), SinkFault>
    requires { PreFits pre.now }
    ensures ok { OnOk result (Puts (S.state sink.old) (S.state sink.new) (pre_bits pre.now)) }
    ensures fault { IfErr result (Stops (S.state sink.old) (S.state sink.new) (pre_bits pre.now)) }
{
    put_fields(sink, &PRE, &pre_values(pre))
}
