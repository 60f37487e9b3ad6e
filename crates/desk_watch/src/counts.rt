// What is counted of a run, from the bytes that it reads, writes and says.
ghost use Rattle.std.specs.Prelude.{◌<◌, length};

use crate::differing::Differing;
use crate::input::Input;
use crate::l1_test::L1Test;
use crate::notes::Notes;
use crate::records::{Inside, RecordCounts};
use crate::said::Said;
use crate::t2mi::T2miCounts;
use bit_slice::OutOfMemory;
use common_plp::common_of;
use plp_config::{Config, Plan};
use ports::{Note, Word};
use std::alloc::Global;

/// What is told of a run that is done.
#[derive(Clone, Copy, PartialEq, Eq)]
pub enum Kind {
    /// Of no command that is watched.
    Nothing,
    /// Packets of the inputs and blocks of the PLPs. With `common` the common PLPs have no input.
    Gateway { common: bool },
    /// Units that were passed over, and muted records.
    Modulate,
    /// Records that were not taken, by a receiver of the PLP at a place.
    Receive { plp: Option<usize> },
    /// Units that were passed over in two streams, and of which of them no frame came.
    Compare,
    /// Units that were passed over in two streams, and how many frames either had whole.
    Merge,
    /// Units that were passed over in each feed, which of them gave none, and how many frames each had whole.
    Mend,
    /// Units that were passed over, and where the packets for the PLP at a place end.
    Swap { plp: Option<usize> },
}

/// What is counted of OUT.
#[derive(Drop)]
pub enum OutCounts<'a> {
    Nothing,
    Records(RecordCounts<'a>),
    T2mi(T2miCounts),
}

/// What is counted of a run.
#[derive(Drop)]
pub struct RunCounts<'a> {
    pub(crate) kind: Kind,
    // The plan of CONFIG, if it could be read again.
    pub(crate) plan: Option<&'a Plan>,
    // What is read behind CONFIG, in the order in which it is opened.
    pub(crate) inputs: Vec<Input<'a>>,
    pub(crate) out: OutCounts<'a>,
    pub(crate) said: Said,
    pub(crate) differing: Differing,
    pub(crate) notes: Notes,
}

// The PID of T2-MI, if it is known.
fn pid_of(plan: Option<&Plan>) -> Option<u16> {
    match plan {
        Some(plan) => Some(plan.config().pid),
        None => None,
    }
}

// The place of the PLP with an identifier, if it is known.
fn place_of(plan: Option<&Plan>, plp_id: u8) -> Option<usize> {
    match plan {
        Some(plan) => plan.place_of(plp_id),
        None => None,
    }
}

fn id_at(config: &Config, place: usize) -> Option<u8> {
    match config.plps.get(place) {
        Some(plp) => Some(plp.id),
        None => None,
    }
}

// The identifier of the common PLP of the group of the PLP at a place.
fn common_id_at(config: &Config, place: usize) -> Option<u8>
    requires { place < length config.now.plps }
{
    match common_of(config, place) {
        Some(common) => id_at(config, common),
        None => None,
    }
}

// The same of the PLP with an identifier.
fn common_id_of(plan: &Plan, plp_id: u8) -> Option<u8> {
    match plan.place_of(plp_id) {
        Some(place) => common_id_at(plan.config(), place),
        None => None,
    }
}

// What of records is looked into by a receiver of a PLP, with its common PLP or alone.
fn inside_of(
    alloc: Global,
    plan: &Plan,
    plp_id: u8,
    joined: bool,
) -> Result<Inside<'_>, OutOfMemory> {
    let common_id = if joined {
        common_id_of(plan, plp_id)
    } else {
        None
    };
    Ok(Inside {
        l1: L1Test::open(alloc, plan)?,
        plp_id,
        common_id,
    })
}

impl<'a> RunCounts<'a> {
    /// Nothing is counted.
    pub fn none(alloc: Global) -> RunCounts<'a> {
        RunCounts {
            kind: Kind::Nothing,
            plan: None,
            inputs: Vec::new(alloc),
            out: OutCounts::Nothing,
            said: Said::new(),
            differing: Differing::new(),
            notes: Notes::new(),
        }
    }

    // Nothing came of a run of a kind.
    fn new(alloc: Global, kind: Kind, plan: Option<&'a Plan>) -> RunCounts<'a> {
        RunCounts {
            kind,
            plan,
            ..RunCounts::none(alloc)
        }
    }

    /// Of `gateway`, or of `common gateway`.
    pub fn of_gateway(
        alloc: Global,
        plan: Option<&'a Plan>,
        ins: &'a [Word],
        common: bool,
    ) -> Result<RunCounts<'a>, OutOfMemory> {
        let mut counts = RunCounts::new(alloc, Kind::Gateway { common }, plan);
        for word in ins {
            counts.inputs.push(Input::of_packets(word.as_str()))?;
        }
        counts.out = OutCounts::T2mi(T2miCounts::new());
        Ok(counts)
    }

    /// Of `modulate`.
    pub fn of_modulate(
        alloc: Global,
        plan: Option<&'a Plan>,
        input: &'a str,
    ) -> Result<RunCounts<'a>, OutOfMemory> {
        let mut counts = RunCounts::new(alloc, Kind::Modulate, plan);
        counts.inputs.push(Input::of_units(input, pid_of(plan)))?;
        counts.out = OutCounts::Records(RecordCounts::new(None));
        Ok(counts)
    }

    /// Of `receive`, or joined with the common PLP of the group of `common receive`.
    pub fn of_receive(
        alloc: Global,
        plan: Option<&'a Plan>,
        plp_id: u8,
        joined: bool,
        input: &'a str,
    ) -> Result<RunCounts<'a>, OutOfMemory> {
        let plp = place_of(plan, plp_id);
        let mut counts = RunCounts::new(alloc, Kind::Receive { plp }, plan);
        let inside = match plan {
            Some(plan) => Some(inside_of(alloc, plan, plp_id, joined)?),
            None => None,
        };
        let records = RecordCounts::new(inside);
        counts.inputs.push(Input::of_records(input, records))?;
        Ok(counts)
    }

    // Of two streams.
    fn of_two(
        alloc: Global,
        kind: Kind,
        plan: Option<&'a Plan>,
        a: &'a str,
        b: &'a str,
    ) -> Result<RunCounts<'a>, OutOfMemory> {
        let mut counts = RunCounts::new(alloc, kind, plan);
        counts.inputs.push(Input::of_units(a, pid_of(plan)))?;
        counts.inputs.push(Input::of_units(b, pid_of(plan)))?;
        Ok(counts)
    }

    /// Of `compare`.
    pub fn of_compare(
        alloc: Global,
        plan: Option<&'a Plan>,
        a: &'a str,
        b: &'a str,
    ) -> Result<RunCounts<'a>, OutOfMemory> {
        RunCounts::of_two(alloc, Kind::Compare, plan, a, b)
    }

    /// Of `merge`.
    pub fn of_merge(
        alloc: Global,
        plan: Option<&'a Plan>,
        a: &'a str,
        b: &'a str,
    ) -> Result<RunCounts<'a>, OutOfMemory> {
        let mut counts = RunCounts::of_two(alloc, Kind::Merge, plan, a, b)?;
        counts.out = OutCounts::T2mi(T2miCounts::new());
        Ok(counts)
    }

    /// Of `mend`.
    pub fn of_mend(
        alloc: Global,
        plan: Option<&'a Plan>,
        ins: &'a [Word],
    ) -> Result<RunCounts<'a>, OutOfMemory> {
        let mut counts = RunCounts::new(alloc, Kind::Mend, plan);
        for word in ins {
            counts
                .inputs
                .push(Input::of_feed(word.as_str(), pid_of(plan)))?;
        }
        counts.out = OutCounts::T2mi(T2miCounts::new());
        Ok(counts)
    }

    /// Of `swap`.
    pub fn of_swap(
        alloc: Global,
        plan: Option<&'a Plan>,
        plp_id: u8,
        t2mi: &'a str,
        input: &'a str,
    ) -> Result<RunCounts<'a>, OutOfMemory> {
        let plp = place_of(plan, plp_id);
        let mut counts = RunCounts::new(alloc, Kind::Swap { plp }, plan);
        counts.inputs.push(Input::of_units(t2mi, pid_of(plan)))?;
        counts.inputs.push(Input::of_packets(input))?;
        counts.out = OutCounts::T2mi(T2miCounts::new());
        Ok(counts)
    }

    /// The file at a place among those that are read.
    pub fn input(&self, place: usize) -> Option<&Input<'a>> {
        self.inputs.get(place)
    }

    /// Bytes of a file were read. Files have the handles 0, 1 and so on as they are opened, and CONFIG is the first.
    pub fn read(&mut self, handle: u32, bytes: &[u8]) {
        if handle == 0 {
            return;
        }
        let place = (handle as usize).saturating_sub(1);
        if let Some(input) = self.inputs.get_mut(place) {
            input.take(bytes);
        }
    }

    /// Bytes of OUT were written.
    pub fn wrote(&mut self, bytes: &[u8]) {
        match &mut self.out {
            OutCounts::Nothing => {}
            OutCounts::Records(records) => records.take(bytes),
            OutCounts::T2mi(frames) => frames.take(bytes),
        }
    }

    /// A text was said.
    pub fn said(&mut self, text: &[u8]) {
        if matches!(self.kind, Kind::Compare | Kind::Swap { .. }) {
            self.said.take(text);
            self.differing.take(text);
        }
    }

    /// The run took note of something.
    pub fn note(&mut self, note: Note) {
        self.notes.add(note);
    }
}
