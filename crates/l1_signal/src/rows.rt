// The rows of a part of L1-post, one for each PLP.
ghost use Rattle.std.specs.Prelude.{◌≡◌, ◌↔◌, ◌≤◌, ◌<◌, List, Bool, Ok, Err, IfOk, IfErr, OnOk, length};
ghost use Rattle.std.specs.Prelude.{replicate};
ghost use Rattle.std.specs.List.{All, flat_map};
ghost use Rattle.bit_slice.specs.Sink.{Puts, Stops};
ghost use Rattle.l1_signal.specs.Fields.{Reading, each_read, HasGiven};

use crate::L1Fault;
use bit_slice::{BitSink, BitSource, OutOfMemory, SinkFault, puts_law, stops_law};
use std::alloc::Global;
use std::marker::Model;

/// One PLP in a part of L1-post, as it is read from such a source.
pub trait ReadPlp<'a, R: BitSource<'a>>: Copy + Drop {
    /// What reading gives.
    ghost reading: { List Bool → Reading Self };

    /// Reads the fields of one PLP, up to the first refusal.
    fn read(source: &mut R) -> Result<Self, L1Fault>
        ensures ok { IfOk result (λ row. reading (R.left source.old) ≡ Ok (row, R.left source.new)) }
        ensures fault { IfErr result (λ e. reading (R.left source.old) ≡ Err e) }
        ensures given { HasGiven (R.left source.old) (R.left source.new) };
}

/// One PLP in a part of L1-post, as it is written.
pub trait WritePlp: Drop {
    /// Each field fits its width, and none is refused.
    ghost fits: { Self → Type 0 };

    /// What is written.
    ghost bits: { Self → List Bool };

    /// Appends the fields of one PLP. After a fault a part of them, from the first one on, stands in the sink.
    fn write<S: BitSink>(sink: &mut S, plp: &Self) -> Result<(), SinkFault>
        requires { fits plp.now }
        ensures ok { OnOk result (Puts (S.state sink.old) (S.state sink.new) (bits plp.now)) }
        ensures fault { IfErr result (Stops (S.state sink.old) (S.state sink.new) (bits plp.now)) };
}

/// The PLPs of a part of L1-post, in its order.
#[derive(Debug, Drop)]
pub struct PlpRows<T> {
    rows: Vec<T>,
}

impl<T> Model for PlpRows<T> {
    ghost Value = { List T };

    ghost view = { λ r. r.rows.items };
}

impl<T: Copy + Drop> PlpRows<T> {
    ghost use Rattle.std.specs.Prelude.{◌≡◌, ◌↔◌, ◌<◌, ◌≤◌, ◌++◌, ◌∷◌, [], IsTrue, length, replicate, Ok, Err, IfOk};
    ghost use Rattle.std.specs.Prelude.{IfErr, OnOk};
    ghost use Rattle.std.specs.Prelude.{IsNone, slice_get, slice_set, slice_index_or};
    ghost use Rattle.std.specs.Option.{option_copied};

    /// The number of PLPs.
    pub fn len(&self) -> usize
        ensures { result ≡ length self.now }
    {
        self.rows.len()
    }

    /// Whether there is no PLP.
    pub fn is_empty(&self) -> bool
        ensures { IsTrue result ↔ (length self.now ≡ 0) }
    {
        self.rows.is_empty()
    }

    /// The PLP at a place, `None` past the end.
    pub fn get(&self, place: usize) -> Option<&T>
        ensures plp { option_copied result ≡ slice_get self.now place }
        ensures none { IsNone result ↔ (length self.now ≤ place) }
    {
        self.rows.get(place)
    }

    pub(crate) fn new(alloc: Global) -> PlpRows<T>
        ensures { result ≡ [] }
    {
        PlpRows {
            rows: Vec::new(alloc),
        }
    }

    pub(crate) fn push(&mut self, row: T) -> Result<(), OutOfMemory>
        ensures { OnOk result (self.new ≡ self.old ++ row ∷ []) }
    {
        self.rows.push(row)?;
        Ok(())
    }

    pub(crate) fn of(rows: Vec<T>) -> PlpRows<T>
        ensures { result ≡ rows.items }
    {
        PlpRows { rows }
    }

    pub(crate) fn as_slice(&self) -> &[T]
        ensures { result.now ≡ self.now }
    {
        &self.rows
    }

    pub(crate) fn at(&self, place: usize) -> T
        requires { place < length self.now }
        ensures { (d : T) → result ≡ slice_index_or self.now place d }
    {
        self.rows[place]
    }

    pub(crate) fn set(&mut self, place: usize, row: T)
        requires { place < length self.old }
        ensures { self.new ≡ slice_set self.old place row }
    {
        self.rows[place] = row;
    }
}

// Reads as many PLPs as there are.
pub(crate) fn read_plps<'a, R: BitSource<'a>, T: ReadPlp<'a, R>>(
    source: &mut R,
    plps: &mut PlpRows<T>,
) -> Result<(), L1Fault>
    ensures ok { OnOk result (each_read (replicate (length plps.old) T.reading) (R.left source.old)
        ≡ Ok (plps.new, R.left source.new)) }
    ensures fault { IfErr result (λ e. each_read (replicate (length plps.old) T.reading) (R.left source.old) ≡ Err e) }
    ensures given { HasGiven (R.left source.old) (R.left source.new) }
    ensures len { length plps.new ≡ length plps.old }
{
    read_rows(source, &mut plps.rows)
}

// Reads as many PLPs as there are rows.
fn read_rows<'a, R: BitSource<'a>, T: ReadPlp<'a, R>>(
    source: &mut R,
    rows: &mut [T],
) -> Result<(), L1Fault>
    ensures ok { OnOk result (each_read (replicate (length rows.old) T.reading) (R.left source.old)
        ≡ Ok (rows.new, R.left source.new)) }
    ensures fault { IfErr result (λ e. each_read (replicate (length rows.old) T.reading) (R.left source.old) ≡ Err e) }
    ensures given { HasGiven (R.left source.old) (R.left source.new) }
{
    for i in 0..rows.len() {
        rows[i] = T::read(source)?;
    }
    Ok(())
}

// Puts the PLPs in order.
pub(crate) fn write_plps<T: WritePlp, S: BitSink>(sink: &mut S, rows: &[T]) -> Result<(), SinkFault>
    requires { All T.fits rows.now }
    ensures ok { OnOk result (Puts (S.state sink.old) (S.state sink.new) (flat_map T.bits rows.now)) }
    ensures fault { IfErr result (Stops (S.state sink.old) (S.state sink.new) (flat_map T.bits rows.now)) }
{
    puts_law();
    stops_law();
    for i in 0..rows.len() {
        T::write(sink, &rows[i])?;
    }
    Ok(())
}
