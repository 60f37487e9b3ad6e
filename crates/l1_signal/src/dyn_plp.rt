// One PLP in the dynamic part.
ghost use Rattle.std.specs.Prelude.{◌≡◌, [], IfOk, replicate};
ghost use Rattle.l1_signal.specs.Fields.{values};
ghost use Rattle.l1_signal.specs.L1Dynamic.{dyn_plp_rows, dyn_plp, dyn_plp_at, no_dyn_plp};
ghost use Rattle.l1_signal.specs.Places.{AreSmall};

use crate::L1Fault;
use crate::fields::{Demand, Field, put_fields, read_fields};
use crate::rows::{PlpRows, ReadPlp, WritePlp};
use bit_slice::{BitSink, BitSource, OutOfMemory, SinkFault};
use std::alloc::Global;

#[rattlefmt::skip]
const DYN_PLP: [Field; 4] = [
    Field { number: 67, width: 8, demand: Demand::Any },
    Field { number: 68, width: 22, demand: Demand::Any },
    Field { number: 69, width: 10, demand: Demand::Any },
    Field { number: 70, width: 8, demand: Demand::Any },
];

/// One PLP in the dynamic part (EN 302 755, clause 7.2.3.2).
#[derive(Clone, Copy, Debug, PartialEq, Eq)]
pub struct DynPlp {
    /// PLP_ID, 8 bits.
    pub plp_id: u8,
    /// PLP_START, 22 bits.
    pub plp_start: u32,
    /// PLP_NUM_BLOCKS, 10 bits.
    pub plp_num_blocks: u16,
}

// All fields are 0.
const NO_DYN_PLP: DynPlp = DynPlp {
    plp_id: 0,
    plp_start: 0,
    plp_num_blocks: 0,
};

// So many of them.
pub(crate) fn zero_dyn_plps(alloc: Global, count: usize) -> Result<PlpRows<DynPlp>, OutOfMemory>
    ensures { IfOk result (λ plps. plps ≡ replicate count no_dyn_plp) }
{
    Ok(PlpRows::of(vec![in alloc; NO_DYN_PLP; count]?))
}

fn dyn_plp_at(values: &[u64; 4]) -> DynPlp
    requires { AreSmall 0 dyn_plp values.now }
    ensures { result ≡ dyn_plp_at values.now }
{
    DynPlp {
        plp_id: values[0] as u8,
        plp_start: values[1] as u32,
        plp_num_blocks: values[2] as u16,
    }
}

fn dyn_plp_values(plp: &DynPlp) -> [u64; 4]
    ensures { result ≡ values dyn_plp_rows plp.now [] }
{
    [
        u64::from(plp.plp_id),
        u64::from(plp.plp_start),
        u64::from(plp.plp_num_blocks),
        0,
    ]
}

impl<'a, R: BitSource<'a>> ReadPlp<'a, R> for DynPlp {
    ghost use Rattle.l1_signal.specs.L1Dynamic.{dyn_plp_read};

    ghost reading = { dyn_plp_read };

    fn read(source: &mut R) -> Result<DynPlp, L1Fault> {
        let mut values = [0; 4];
        read_fields(source, &DYN_PLP, &mut values)?;
        Ok(dyn_plp_at(&values))
    }
}

impl WritePlp for DynPlp {
    ghost use Rattle.l1_signal.specs.Fields.{row_bits, RowsFit};
    ghost use Rattle.l1_signal.specs.L1Dynamic.{dyn_plp_rows};

    ghost fits = { RowsFit dyn_plp_rows };

    ghost bits = { row_bits dyn_plp_rows };

    fn write<S: BitSink>(sink: &mut S, plp: &DynPlp) -> Result<(), SinkFault> {
        put_fields(sink, &DYN_PLP, &dyn_plp_values(plp))
    }
}
