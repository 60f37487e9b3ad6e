// Fields one behind another, read and written by a table.
ghost use Rattle.std.specs.Prelude.{◌≡◌, ◌≤◌, length, Ok, Err, OnOk, IfOk, IfErr};
ghost use Rattle.bit_slice.specs.Sink.{Puts, Stops};
ghost use Rattle.l1_signal.specs.Fields.{meets, field_read, values_of, spelling, Fits, HasGiven};
ghost use Rattle.l1_signal.specs.Places.{Narrow};

use crate::L1Fault;
use bit_slice::{BitSink, BitSource, SinkFault, puts_law, stops_law};

/// Which values of a field are read.
#[derive(Clone, Copy, Debug, PartialEq, Eq)]
pub enum Demand {
    Any,
    Only(u64),
    AtMost(u64),
    Positive,
    Even,
}

impl Demand {
    fn is_met(self, value: u64) -> bool
        ensures { result ≡ meets self value }
    {
        match self {
            Demand::Any => true,
            Demand::Only(one) => value == one,
            Demand::AtMost(most) => value <= most,
            Demand::Positive => value >= 1,
            Demand::Even => value % 2 == 0,
        }
    }
}

/// A field, by the number of its row, its width in bits, and the values that are read.
#[derive(Clone, Copy, Debug, PartialEq, Eq)]
pub struct Field {
    pub number: u8,
    pub width: u32,
    pub demand: Demand,
}

fn read_field<'a, R: BitSource<'a>>(source: &mut R, field: Field) -> Result<u64, L1Fault>
    requires { field.width ≤ 64 }
    ensures ok { IfOk result (λ value. field_read field (R.left source.old) ≡ Ok (value, R.left source.new)) }
    ensures fault { IfErr result (λ e. field_read field (R.left source.old) ≡ Err e) }
    ensures given { HasGiven (R.left source.old) (R.left source.new) }
{
    let value = match source.take(field.width) {
        Ok(value) => value,
        Err(short) => return Err(L1Fault::Short { left: short.left }),
    };
    if !field.demand.is_met(value) {
        return Err(L1Fault::Unsupported {
            field: field.number,
        });
    }
    Ok(value)
}

// Reads the fields of a table in order, up to the first refusal.
pub(crate) fn read_fields<'a, R: BitSource<'a>>(
    source: &mut R,
    table: &[Field],
    out: &mut [u64],
) -> Result<(), L1Fault>
    requires narrow { Narrow table.now }
    requires len { length out.old ≡ length table.now }
    ensures ok { OnOk result (values_of table.now (R.left source.old) ≡ Ok (out.new, R.left source.new)) }
    ensures fault { IfErr result (λ e. values_of table.now (R.left source.old) ≡ Err e) }
    ensures given { HasGiven (R.left source.old) (R.left source.new) }
{
    for i in 0..table.len() {
        out[i] = read_field(source, table[i])?;
    }
    Ok(())
}

// Puts the fields of a table with these values.
pub(crate) fn put_fields<S: BitSink>(
    sink: &mut S,
    table: &[Field],
    values: &[u64],
) -> Result<(), SinkFault>
    requires narrow { Narrow table.now }
    requires fits { Fits table.now values.now }
    requires len { length values.now ≡ length table.now }
    ensures ok { OnOk result (Puts (S.state sink.old) (S.state sink.new) (spelling table.now values.now)) }
    ensures fault { IfErr result (Stops (S.state sink.old) (S.state sink.new) (spelling table.now values.now)) }
{
    puts_law();
    stops_law();
    for i in 0..table.len() {
        sink.put(values[i], table[i].width)?;
    }
    Ok(())
}
