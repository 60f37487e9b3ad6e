// The configurable part.
ghost use Rattle.std.specs.Prelude.{◌≡◌, ◌⊎◌, Ok, Err, OnOk, IfOk, IfErr, [], slice_index};
ghost use Rattle.bit_slice.specs.Sink.{Puts, Stops};
ghost use Rattle.l1_signal.specs.Fields.{values, HasGiven};
ghost use Rattle.l1_signal.specs.L1Configurable.{conf_first_rows, conf_more_rows, conf_back_rows, conf_first};
ghost use Rattle.l1_signal.specs.L1Configurable.{conf_more};
ghost use Rattle.l1_signal.specs.L1Configurable.{conf_back, conf_at, conf_read, conf_bits, ConfFits};
ghost use Rattle.l1_signal.specs.Places.{AreSmall};
ghost use Rattle.l1_signal.specs.declared.fault.L1Fault.TheVariants.{OutOfMemory};

use crate::conf_plp::zero_conf_plps;
use crate::fields::{Demand, Field, put_fields, read_fields};
use crate::rows::{read_plps, write_plps};
use crate::{ConfPlp, INFO_BITS, L1Fault, L1Pre, PLP_BITS, PlpRows};
use bit_slice::{BitSink, BitSource, SinkFault, puts_law, stops_law};
use std::alloc::Global;

#[rattlefmt::skip]
pub(crate) const CONF_FIRST: [Field; 2] = [
    Field { number: 31, width: 15, demand: Demand::Any },
    Field { number: 32, width: 8, demand: Demand::Positive },
];

#[rattlefmt::skip]
pub(crate) const CONF_MORE: [Field; 4] = [
    Field { number: 33, width: 4, demand: Demand::Only(0) },
    Field { number: 34, width: 8, demand: Demand::Any },
    Field { number: 35, width: 3, demand: Demand::Any },
    Field { number: 36, width: 32, demand: Demand::Any },
];

#[rattlefmt::skip]
pub(crate) const CONF_BACK: [Field; 2] = [
    Field { number: 58, width: 2, demand: Demand::Only(0) },
    Field { number: 59, width: 30, demand: Demand::Any },
];

/// The configurable part of L1-post (EN 302 755, clause 7.2.3.1).
#[derive(Debug, Drop)]
pub struct L1Conf {
    /// SUB_SLICES_PER_FRAME, 15 bits.
    pub sub_slices_per_frame: u16,
    /// NUM_PLP, 8 bits.
    pub num_plp: u8,
    /// NUM_AUX, 4 bits.
    pub num_aux: u8,
    /// RF_IDX, 3 bits.
    pub rf_idx: u8,
    /// FREQUENCY, 32 bits.
    pub frequency: u32,
    /// The PLPs.
    pub plps: PlpRows<ConfPlp>,
    /// FEF_LENGTH_MSB, 2 bits.
    pub fef_length_msb: u8,
}

fn conf_at(first: &[u64; 2], more: &[u64; 4], plps: PlpRows<ConfPlp>, back: &[u64; 2]) -> L1Conf
    requires first { AreSmall 0 conf_first first.now }
    requires more { AreSmall 0 conf_more more.now }
    requires back { AreSmall 0 conf_back back.now }
    ensures { result ≡ conf_at first.now more.now plps back.now }
{
    L1Conf {
        sub_slices_per_frame: first[0] as u16,
        num_plp: first[1] as u8,
        num_aux: more[0] as u8,
        rf_idx: more[2] as u8,
        frequency: more[3] as u32,
        plps,
        fef_length_msb: back[0] as u8,
    }
}

fn num_plp(first: &[u64; 2]) -> u8
    requires { AreSmall 0 conf_first first.now }
    ensures { result ≡ slice_index first.now 1 }
{
    first[1] as u8
}

fn first_values(conf: &L1Conf) -> [u64; 2]
    ensures { result ≡ values conf_first_rows conf.now [] }
{
    [
        u64::from(conf.sub_slices_per_frame),
        u64::from(conf.num_plp),
    ]
}

fn more_values(conf: &L1Conf) -> [u64; 4]
    ensures { result ≡ values conf_more_rows conf.now [] }
{
    [
        u64::from(conf.num_aux),
        0,
        u64::from(conf.rf_idx),
        u64::from(conf.frequency),
    ]
}

fn back_values(conf: &L1Conf) -> [u64; 2]
    ensures { result ≡ values conf_back_rows conf.now [] }
{
    [u64::from(conf.fef_length_msb), 0]
}

/// Reads the configurable part, up to the first refusal in the order of the fields. L1_POST_INFO_SIZE of L1-pre is
/// looked at as soon as NUM_PLP is read.
pub fn read_conf<'a, R: BitSource<'a>>(
    alloc: Global,
    source: &mut R,
    pre: &L1Pre,
) -> Result<L1Conf, L1Fault>
    ensures ok { IfOk result (λ conf. conf_read pre.now.l1_post_info_size (R.left source.old) ≡ Ok
        (conf, R.left source.new)) }
    ensures fault { IfErr result (λ e. (e ≡ OutOfMemory)
        ⊎ (conf_read pre.now.l1_post_info_size (R.left source.old) ≡ Err e)) }
    ensures fits { IfOk result ConfFits }
    ensures given { HasGiven (R.left source.old) (R.left source.new) }
{
    let mut first = [0; 2];
    read_fields(source, &CONF_FIRST, &mut first)?;
    let count = num_plp(&first);
    let (told, counted) = (
        pre.l1_post_info_size,
        INFO_BITS as u32 + PLP_BITS as u32 * u32::from(count),
    );
    if told != counted {
        return Err(L1Fault::Size { told, counted });
    }
    let mut more = [0; 4];
    read_fields(source, &CONF_MORE, &mut more)?;
    let Ok(mut plps) = zero_conf_plps(alloc, usize::from(count)) else {
        return Err(L1Fault::OutOfMemory);
    };
    read_plps(source, &mut plps)?;
    let mut back = [0; 2];
    read_fields(source, &CONF_BACK, &mut back)?;
    Ok(conf_at(&first, &more, plps, &back))
}

/// Appends the configurable part, [`crate::conf_len`] bits. After a fault a part of it, from its start, stands in the
/// sink.
pub fn write_conf<S: BitSink>(sink: &mut S, conf: &L1Conf) -> Result<(), SinkFault>
    requires { ConfFits conf.now }
    ensures ok { OnOk result (Puts (S.state sink.old) (S.state sink.new) (conf_bits conf.now)) }
    ensures fault { IfErr result (Stops (S.state sink.old) (S.state sink.new) (conf_bits conf.now)) }
{
    puts_law();
    stops_law();
    put_fields(sink, &CONF_FIRST, &first_values(conf))?;
    put_fields(sink, &CONF_MORE, &more_values(conf))?;
    write_plps(sink, conf.plps.as_slice())?;
    put_fields(sink, &CONF_BACK, &back_values(conf))
}
