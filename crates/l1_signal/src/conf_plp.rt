// One PLP in the configurable part.
ghost use Rattle.std.specs.Prelude.{◌≡◌, [], IfOk, length};
ghost use Rattle.l1_signal.specs.Fields.{values};
ghost use Rattle.l1_signal.specs.L1Configurable.{conf_plp_rows, conf_plp, conf_plp_at};
ghost use Rattle.l1_signal.specs.Places.{AreSmall};

use crate::L1Fault;
use crate::fields::{Demand, Field, put_fields, read_fields};
use crate::rows::{PlpRows, ReadPlp, WritePlp};
use bit_slice::{BitSink, BitSource, OutOfMemory, SinkFault};
use std::alloc::Global;

#[rattlefmt::skip]
const CONF_PLP: [Field; 21] = [
    Field { number: 37, width: 8, demand: Demand::Any },
    Field { number: 38, width: 3, demand: Demand::AtMost(2) },
    Field { number: 39, width: 5, demand: Demand::Only(3) },
    Field { number: 40, width: 1, demand: Demand::Only(0) },
    Field { number: 41, width: 3, demand: Demand::Any },
    Field { number: 42, width: 8, demand: Demand::Any },
    Field { number: 43, width: 8, demand: Demand::Any },
    Field { number: 44, width: 3, demand: Demand::AtMost(5) },
    Field { number: 45, width: 3, demand: Demand::AtMost(3) },
    Field { number: 46, width: 1, demand: Demand::Any },
    Field { number: 47, width: 2, demand: Demand::AtMost(1) },
    Field { number: 48, width: 10, demand: Demand::Any },
    Field { number: 49, width: 8, demand: Demand::Only(1) },
    Field { number: 50, width: 8, demand: Demand::Any },
    Field { number: 51, width: 1, demand: Demand::AtMost(1) },
    Field { number: 52, width: 1, demand: Demand::Only(0) },
    Field { number: 53, width: 1, demand: Demand::Only(0) },
    Field { number: 54, width: 11, demand: Demand::Any },
    Field { number: 55, width: 2, demand: Demand::Only(2) },
    Field { number: 56, width: 1, demand: Demand::Any },
    Field { number: 57, width: 1, demand: Demand::Any },
];

/// One PLP in the configurable part (EN 302 755, clause 7.2.3.1).
#[derive(Clone, Copy, Debug, PartialEq, Eq)]
pub struct ConfPlp {
    /// PLP_ID, 8 bits.
    pub plp_id: u8,
    /// PLP_TYPE, 3 bits.
    pub plp_type: u8,
    /// PLP_PAYLOAD_TYPE, 5 bits.
    pub plp_payload_type: u8,
    /// FF_FLAG, 1 bit.
    pub ff_flag: u8,
    /// FIRST_RF_IDX, 3 bits.
    pub first_rf_idx: u8,
    /// FIRST_FRAME_IDX, 8 bits.
    pub first_frame_idx: u8,
    /// PLP_GROUP_ID, 8 bits.
    pub plp_group_id: u8,
    /// PLP_COD, 3 bits.
    pub plp_cod: u8,
    /// PLP_MOD, 3 bits.
    pub plp_mod: u8,
    /// PLP_ROTATION, 1 bit.
    pub plp_rotation: u8,
    /// PLP_FEC_TYPE, 2 bits.
    pub plp_fec_type: u8,
    /// PLP_NUM_BLOCKS_MAX, 10 bits: the blocks of an interleaving frame at most.
    pub plp_num_blocks_max: u16,
    /// FRAME_INTERVAL, 8 bits.
    pub frame_interval: u8,
    /// TIME_IL_LENGTH, 8 bits: with TIME_IL_TYPE 0 the TI-blocks of a frame, else the frames of an interleaving frame.
    pub time_il_length: u8,
    /// TIME_IL_TYPE, 1 bit: whether several frames carry an interleaving frame.
    pub time_il_type: u8,
    /// IN_BAND_A_FLAG, 1 bit.
    pub in_band_a_flag: u8,
    /// IN_BAND_B_FLAG, 1 bit.
    pub in_band_b_flag: u8,
    /// PLP_MODE, 2 bits.
    pub plp_mode: u8,
    /// STATIC_FLAG, 1 bit.
    pub static_flag: u8,
    /// STATIC_PADDING_FLAG, 1 bit.
    pub static_padding_flag: u8,
}

// All fields are 0.
const NO_CONF_PLP: ConfPlp = ConfPlp {
    plp_id: 0,
    plp_type: 0,
    plp_payload_type: 0,
    ff_flag: 0,
    first_rf_idx: 0,
    first_frame_idx: 0,
    plp_group_id: 0,
    plp_cod: 0,
    plp_mod: 0,
    plp_rotation: 0,
    plp_fec_type: 0,
    plp_num_blocks_max: 0,
    frame_interval: 0,
    time_il_length: 0,
    time_il_type: 0,
    in_band_a_flag: 0,
    in_band_b_flag: 0,
    plp_mode: 0,
    static_flag: 0,
    static_padding_flag: 0,
};

// So many of them.
pub(crate) fn zero_conf_plps(alloc: Global, count: usize) -> Result<PlpRows<ConfPlp>, OutOfMemory>
    ensures { IfOk result (λ plps. length plps ≡ count) }
{
    Ok(PlpRows::of(vec![in alloc; NO_CONF_PLP; count]?))
}

fn conf_plp_at(values: &[u64; 21]) -> ConfPlp
    requires { AreSmall 0 conf_plp values.now }
    ensures { result ≡ conf_plp_at values.now }
{
    ConfPlp {
        plp_id: values[0] as u8,
        plp_type: values[1] as u8,
        plp_payload_type: values[2] as u8,
        ff_flag: values[3] as u8,
        first_rf_idx: values[4] as u8,
        first_frame_idx: values[5] as u8,
        plp_group_id: values[6] as u8,
        plp_cod: values[7] as u8,
        plp_mod: values[8] as u8,
        plp_rotation: values[9] as u8,
        plp_fec_type: values[10] as u8,
        plp_num_blocks_max: values[11] as u16,
        frame_interval: values[12] as u8,
        time_il_length: values[13] as u8,
        time_il_type: values[14] as u8,
        in_band_a_flag: values[15] as u8,
        in_band_b_flag: values[16] as u8,
        plp_mode: values[18] as u8,
        static_flag: values[19] as u8,
        static_padding_flag: values[20] as u8,
    }
}

fn conf_plp_values(plp: &ConfPlp) -> [u64; 21]
    ensures { result ≡ values conf_plp_rows plp.now [] }
{
    [
        u64::from(plp.plp_id),
        u64::from(plp.plp_type),
        u64::from(plp.plp_payload_type),
        u64::from(plp.ff_flag),
        u64::from(plp.first_rf_idx),
        u64::from(plp.first_frame_idx),
        u64::from(plp.plp_group_id),
        u64::from(plp.plp_cod),
        u64::from(plp.plp_mod),
        u64::from(plp.plp_rotation),
        u64::from(plp.plp_fec_type),
        u64::from(plp.plp_num_blocks_max),
        u64::from(plp.frame_interval),
        u64::from(plp.time_il_length),
        u64::from(plp.time_il_type),
        u64::from(plp.in_band_a_flag),
        u64::from(plp.in_band_b_flag),
        0,
        u64::from(plp.plp_mode),
        u64::from(plp.static_flag),
        u64::from(plp.static_padding_flag),
    ]
}

impl<'a, R: BitSource<'a>> ReadPlp<'a, R> for ConfPlp {
    ghost use Rattle.l1_signal.specs.L1Configurable.{conf_plp_read};

    ghost reading = { conf_plp_read };

    fn read(source: &mut R) -> Result<ConfPlp, L1Fault> {
        let mut values = [0; 21];
        read_fields(source, &CONF_PLP, &mut values)?;
        Ok(conf_plp_at(&values))
    }
}

impl WritePlp for ConfPlp {
    ghost use Rattle.l1_signal.specs.Fields.{row_bits, RowsFit};
    ghost use Rattle.l1_signal.specs.L1Configurable.{conf_plp_rows};

    ghost fits = { RowsFit conf_plp_rows };

    ghost bits = { row_bits conf_plp_rows };

    fn write<S: BitSink>(sink: &mut S, plp: &ConfPlp) -> Result<(), SinkFault> {
        put_fields(sink, &CONF_PLP, &conf_plp_values(plp))
    }
}
