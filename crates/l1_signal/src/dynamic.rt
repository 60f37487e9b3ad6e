// The dynamic part.
ghost use Rattle.std.specs.Prelude.{◌≡◌, Ok, Err, OnOk, IfErr, [], length};
ghost use Rattle.bit_slice.specs.Sink.{Puts, Stops};
ghost use Rattle.l1_signal.specs.Fields.{values, HasGiven};
ghost use Rattle.l1_signal.specs.L1Dynamic.{dyn_front_rows, dyn_front, dyn_at, dyn_read, dyn_bits, DynFits};
ghost use Rattle.l1_signal.specs.Places.{AreSmall};

use crate::dyn_plp::zero_dyn_plps;
use crate::fields::{Demand, Field, put_fields, read_fields};
use crate::rows::{read_plps, write_plps};
use crate::{DynPlp, L1Fault, PlpRows};
use bit_slice::{BitSink, BitSource, OutOfMemory, SinkFault, puts_law, stops_law};
use std::alloc::Global;

#[rattlefmt::skip]
const DYN_FRONT: [Field; 6] = [
    Field { number: 61, width: 8, demand: Demand::Any },
    Field { number: 62, width: 22, demand: Demand::Any },
    Field { number: 63, width: 22, demand: Demand::Any },
    Field { number: 64, width: 8, demand: Demand::Any },
    Field { number: 65, width: 3, demand: Demand::Any },
    Field { number: 66, width: 8, demand: Demand::Any },
];

#[rattlefmt::skip]
const DYN_BACK: [Field; 1] = [
    Field { number: 71, width: 8, demand: Demand::Any },
];

/// The dynamic part of L1-post (EN 302 755, clause 7.2.3.2).
#[derive(Debug, Drop)]
pub struct L1Dyn {
    /// FRAME_IDX, 8 bits.
    pub frame_idx: u8,
    /// SUB_SLICE_INTERVAL, 22 bits.
    pub sub_slice_interval: u32,
    /// TYPE_2_START, 22 bits.
    pub type_2_start: u32,
    /// L1_CHANGE_COUNTER, 8 bits.
    pub l1_change_counter: u8,
    /// START_RF_IDX, 3 bits.
    pub start_rf_idx: u8,
    /// The PLPs.
    pub plps: PlpRows<DynPlp>,
}

impl L1Dyn {
    ghost use Rattle.std.specs.Prelude.{◌≡◌, IfOk};
    ghost use Rattle.l1_signal.specs.L1Dynamic.{dyn_blank};

    /// A dynamic part for so many PLPs, all its fields 0. It takes all the memory that a dynamic part needs.
    pub fn open(alloc: Global, plps: u16) -> Result<L1Dyn, OutOfMemory>
        ensures { IfOk result (λ dynamic. dynamic ≡ dyn_blank plps) }
    {
        Ok(L1Dyn {
            frame_idx: 0,
            sub_slice_interval: 0,
            type_2_start: 0,
            l1_change_counter: 0,
            start_rf_idx: 0,
            plps: zero_dyn_plps(alloc, usize::from(plps))?,
        })
    }
}

fn set_front(dynamic: &mut L1Dyn, front: &[u64; 6])
    requires { AreSmall 0 dyn_front front.now }
    ensures { dynamic.new ≡ dyn_at front.now dynamic.old.plps }
{
    dynamic.frame_idx = front[0] as u8;
    dynamic.sub_slice_interval = front[1] as u32;
    dynamic.type_2_start = front[2] as u32;
    dynamic.l1_change_counter = front[3] as u8;
    dynamic.start_rf_idx = front[4] as u8;
}

fn front_values(dynamic: &L1Dyn) -> [u64; 6]
    ensures { result ≡ values dyn_front_rows dynamic.now [] }
{
    [
        u64::from(dynamic.frame_idx),
        u64::from(dynamic.sub_slice_interval),
        u64::from(dynamic.type_2_start),
        u64::from(dynamic.l1_change_counter),
        u64::from(dynamic.start_rf_idx),
        0,
    ]
}

/// Reads the dynamic part, with as many PLPs as `out` has, up to the first refusal in the order of the fields. After a
/// fault `out` has any values.
pub fn read_dyn<'a, R: BitSource<'a>>(source: &mut R, out: &mut L1Dyn) -> Result<(), L1Fault>
    ensures ok { OnOk result (dyn_read (length out.old.plps) (R.left source.old) ≡ Ok (out.new, R.left source.new)) }
    ensures fault { IfErr result (λ e. dyn_read (length out.old.plps) (R.left source.old) ≡ Err e) }
    ensures fits { OnOk result (DynFits out.new) }
    ensures given { HasGiven (R.left source.old) (R.left source.new) }
    ensures len { length out.new.plps ≡ length out.old.plps }
{
    let mut front = [0; 6];
    read_fields(source, &DYN_FRONT, &mut front)?;
    read_plps(source, &mut out.plps)?;
    read_fields(source, &DYN_BACK, &mut [0])?;
    set_front(out, &front);
    Ok(())
}

/// Appends the dynamic part, [`crate::dyn_len`] bits. After a fault a part of it, from its start, stands in the sink.
pub fn write_dyn<S: BitSink>(sink: &mut S, dynamic: &L1Dyn) -> Result<(), SinkFault>
    requires { DynFits dynamic.now }
    ensures ok { OnOk result (Puts (S.state sink.old) (S.state sink.new) (dyn_bits dynamic.now)) }
    ensures fault { IfErr result (Stops (S.state sink.old) (S.state sink.new) (dyn_bits dynamic.now)) }
{
    puts_law();
    stops_law();
    put_fields(sink, &DYN_FRONT, &front_values(dynamic))?;
    write_plps(sink, dynamic.plps.as_slice())?;
    put_fields(sink, &DYN_BACK, &[0])
}
