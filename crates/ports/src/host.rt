// A desk over real files and standard output.
ghost use Rattle.std.specs.Prelude.{◌≡◌, ◌⊎◌, ◌<◌, ◌≤◌, ◌+◌, ◌^◌, ◌==◌, false, length, IfOk, OnOk, OnErr, IsErr};
ghost use Rattle.std.specs.Prelude.{IsSome};
ghost use Rattle.ports.specs.Counts.{with_fault};

use crate::fault::fault;
use crate::host_fault::{HostFault, Reason};
use crate::node::{Node, is_told_to, node_of};
use crate::{Counts, Desk, DeskFault, FaultKind, Note};
use std::alloc::Global;
use std::fs::OpenFile;
use std::io::{ErrorKind, Read, Write};
use std::marker::Model;
use std::rt::Files;
use std::{fs, io};

/// A file that was opened or created, under a name if there was memory for it; how many of its bytes were read, and
/// whether the last read gave none.
#[derive(Drop)]
struct Handle<F> {
    file: F,
    name: Option<String>,
    node: Option<Node>,
    place: u64,
    ended: bool,
}

/// A desk over real files and standard output. It tells nothing of what they hold.
///
/// That reads and writes of the runtime do what they say is trusted. A text is said by one write, with no buffer: so a
/// full device or a closed pipe is a fault of that very call. No file that was opened is created, under whatever name, nor
/// one of the disc to which standard output or standard error goes.
#[derive(Drop)]
pub struct HostDesk<R: Files + Print + Drop> {
    rt: R,
    alloc: Global,
    handles: Vec<Handle<R::File>>,
    outs: Vec<Handle<R::File>>,
    counts: Counts,
    first: Option<HostFault>,
}

impl<R: Files + Print + Drop> Model for HostDesk<R> {
    ghost use Rattle.std.specs.Prelude.{◌≡◌, ◌↔◌, None, IsNone, map, vec_len};
    ghost use Rattle.ports.specs.Counts.{no_faults};
    ghost use Rattle.ports.specs.Desk.{State};
    ghost use Rattle.ports.specs.StateCode.{state_code};

    ghost Value = { State };

    ghost coded = { state_code };

    ghost view = { λ d. record {
      held = None;
      said = None;
      opened = map (λ handle. handle.place) d.handles.items;
      ended = map (λ handle. handle.ended) d.handles.items;
      created = vec_len d.outs;
      counts = d.counts;
    } };

    ghost invariant = { λ d. IsNone d.first ↔ (d.counts ≡ no_faults) };
}

// A fault of a kind that is counted, and kept if it is the first.
fn fail(
    counts: &mut Counts,
    kind: FaultKind,
    first: &mut Option<HostFault>,
    what: HostFault,
) -> DeskFault
    ensures one { counts.new ≡ with_fault kind counts.old }
    ensures first { IsSome counts.new.first }
    ensures reads { counts.old.reads ≤ counts.new.reads }
    ensures writes { counts.old.writes ≤ counts.new.writes }
    ensures lines { counts.old.lines ≤ counts.new.lines }
    ensures kept { IsSome first.new }
{
    if first.is_none() {
        *first = Some(what);
    }
    fault(counts, kind)
}

// Says a text by one write. A failure is a fault of this kind.
fn say<R: Print>(
    rt: &R,
    text: &[u8],
    counts: &mut Counts,
    kind: FaultKind,
    first: &mut Option<HostFault>,
) -> Result<(), DeskFault>
    ensures ok { OnOk result ((counts.new ≡ counts.old) × (first.new ≡ first.old)) }
    ensures one { OnErr result (counts.new ≡ with_fault kind counts.old) }
    ensures first { OnErr result (IsSome counts.new.first) }
    ensures writes { counts.old.writes ≤ counts.new.writes }
    ensures lines { counts.old.lines ≤ counts.new.lines }
    ensures kept { OnErr result (IsSome first.new) }
{
    match rt.write_all(text) {
        Ok(()) => Ok(()),
        Err(error) => {
            let why = Reason::from(error);
            Err(fail(counts, kind, first, HostFault::Said { why }))
        }
    }
}

// How often a call is made again that signals cut short, before that is a fault.
const MOST_INTERRUPTIONS: u32 = 1_000;

// Reads once more if a signal cut the call short, which std leaves to the caller.
fn read_again<F: Read>(file: &mut F, buffer: &mut [u8]) -> io::Result<usize>
    ensures { IfOk result (λ n. n ≤ length buffer.new) }
{
    for _ in 0..=MOST_INTERRUPTIONS {
        match file.read(buffer) {
            Err(error) if error.kind() == ErrorKind::Interrupted => {}
            answer => return answer,
        }
    }
    Err(io::Error::from(ErrorKind::Interrupted))
}

// Writes once more if a signal cut the call short.
fn write_again<F: Write>(file: &mut F, piece: &[u8]) -> io::Result<usize>
    ensures { IfOk result (λ n. n ≤ length piece.now) }
{
    for _ in 0..=MOST_INTERRUPTIONS {
        match file.write(piece) {
            Err(error) if error.kind() == ErrorKind::Interrupted => {}
            answer => return answer,
        }
    }
    Err(io::Error::from(ErrorKind::Interrupted))
}

impl<F: Read> Handle<F> {
    // Reads on from its place.
    fn read(&mut self, buffer: &mut [u8]) -> Result<usize, Reason>
        ensures count { IfOk result (λ n. n ≤ length buffer.new) }
        ensures ok { IfOk result (λ n. (self.new.place ≡ self.old.place + n) × (self.new.ended ≡ (n == 0))) }
        ensures err { OnErr result ((self.new.place ≡ self.old.place) × (self.new.ended ≡ self.old.ended)) }
    {
        let count = match read_again(&mut self.file, buffer) {
            Ok(count) => count,
            Err(error) => return Err(Reason::from(error)),
        };
        match self.place.checked_add(count as u64) {
            Some(place) => self.place = place,
            None => return Err(Reason::from(ErrorKind::FileTooLarge)),
        }
        self.ended = count == 0;
        Ok(count)
    }
}

impl<R: Files + Print + Drop> HostDesk<R> {
    ghost use Rattle.std.specs.Prelude.{IsNone, ◌↔◌};
    ghost use Rattle.ports.specs.Counts.{no_faults};
    ghost use Rattle.ports.specs.Desk.{SameCounts, Opens, Creates};
    ghost use Rattle.ports.specs.HostDesk.{untold_state};

    /// A desk with no file opened and no fault.
    pub fn new(rt: R, alloc: Global) -> HostDesk<R>
        ensures { result ≡ untold_state }
    {
        HostDesk {
            rt,
            alloc,
            handles: Vec::new(alloc),
            outs: Vec::new(alloc),
            counts: Counts::default(),
            first: None,
        }
    }

    /// What failed first, and why: `None` exactly if nothing did.
    pub fn first_fault(&self) -> Option<&HostFault>
        ensures { IsNone result ↔ (self.now.counts ≡ no_faults) }
    {
        self.first.as_ref()
    }

    // A name to keep, if there is memory for it.
    fn name(&self, name: &str) -> Option<String> {
        String::from_str(self.alloc, name).ok()
    }

    // The name of a handle's file, if it was kept and there is memory for it.
    fn name_of(&self, handle: &Handle<R::File>) -> Option<String> {
        match &handle.name {
            Some(name) => self.name(name.as_str()),
            None => None,
        }
    }

    // The handle of a file that was opened, if this name is one of its names.
    fn opened_as(&self, name: &str) -> Option<&Handle<R::File>> {
        let node = node_of(fs::metadata(&self.rt, name))?;
        self.handles.iter().find(|handle| handle.node == Some(node))
    }

    // Opens a file as the next handle, if it can.
    fn add_handle(&mut self, name: &str) -> Result<u32, Reason>
        ensures ok { IfOk result (Opens self.old self.new name.now) }
        ensures err { OnErr result (self.new ≡ self.old) }
        ensures counts { SameCounts self.old self.new }
        ensures full { 2 ^ 32 ≤ length self.old.opened → IsErr result }
    {
        let Ok(number) = u32::try_from(self.handles.len()) else {
            return Err(Reason::from(ErrorKind::OutOfMemory));
        };
        let file = match fs::open(&self.rt, name) {
            Ok(file) => file,
            Err(error) => return Err(Reason::from(error)),
        };
        let handle = Handle {
            node: node_of(file.metadata()),
            name: self.name(name),
            file,
            place: 0,
            ended: false,
        };
        match self.handles.push(handle) {
            Ok(()) => Ok(number),
            Err(_) => Err(Reason::from(ErrorKind::OutOfMemory)),
        }
    }

    // Makes a file empty and gives the next handle for writing, if it can.
    fn add_out(&mut self, name: &str) -> Result<u32, HostFault>
        ensures ok { IfOk result (Creates self.old self.new name.now) }
        ensures err { OnErr result (self.new ≡ self.old) }
        ensures counts { SameCounts self.old self.new }
        ensures full { 2 ^ 32 ≤ self.old.created → IsErr result }
    {
        if let Some(handle) = self.opened_as(name) {
            let name = self.name_of(handle);
            return Err(HostFault::IsRead { name });
        }
        if is_told_to(&self.rt, name) {
            let name = self.name(name);
            return Err(HostFault::IsTold { name });
        }
        match self.add_new(name) {
            Ok(out) => Ok(out),
            Err(why) => {
                let name = self.name(name);
                Err(HostFault::Write { name, why })
            }
        }
    }

    // Makes a file empty, whatever else it is.
    fn add_new(&mut self, name: &str) -> Result<u32, Reason>
        ensures ok { IfOk result (Creates self.old self.new name.now) }
        ensures err { OnErr result (self.new ≡ self.old) }
        ensures counts { SameCounts self.old self.new }
        ensures full { 2 ^ 32 ≤ self.old.created → IsErr result }
    {
        let Ok(number) = u32::try_from(self.outs.len()) else {
            return Err(Reason::from(ErrorKind::OutOfMemory));
        };
        let file = match fs::create(&self.rt, name) {
            Ok(file) => file,
            Err(error) => return Err(Reason::from(error)),
        };
        let out = Handle {
            node: None,
            name: self.name(name),
            file,
            place: 0,
            ended: false,
        };
        match self.outs.push(out) {
            Ok(()) => Ok(number),
            Err(_) => Err(Reason::from(ErrorKind::OutOfMemory)),
        }
    }
}

impl<R: Files + Print + Drop> Desk for HostDesk<R> {
    ghost use Rattle.std.specs.Prelude.{take};
    ghost use Rattle.ports.specs.Counts.{MayFailReading, MayFailWriting, MayFailAtLast};
    ghost use Rattle.ports.specs.Desk.{SameCounts, Opens, Creates, FailsToCreate, Reads, Writes, Says, has_run_out};
    ghost use Rattle.ports.specs.Faults.{with_read_fault, with_write_fault, with_line_fault};

    ghost state = { λ d. d };

    fn open(&mut self, name: &str) -> Result<u32, DeskFault>
        ensures ok { IfOk result (Opens self.old self.new name.now) }
        ensures full { 2 ^ 32 ≤ length self.old.opened → IsErr result }
        ensures fault { OnErr result (self.new ≡ with_read_fault self.old) }
        ensures counts { MayFailReading self.old.counts self.new.counts result }
    {
        match self.add_handle(name) {
            Ok(handle) => Ok(handle),
            Err(why) => {
                let name = self.name(name);
                let what = HostFault::Read { name, why };
                Err(fail(&mut self.counts, FaultKind::Reading, &mut self.first, what))
            }
        }
    }

    fn read(&mut self, handle: u32, buffer: &mut [u8]) -> Result<usize, DeskFault>
        requires opened { handle < length self.old.opened }
        requires going { has_run_out self.old handle ≡ false }
        requires room { 0 < length buffer.old }
        ensures count { IfOk result (λ n. n ≤ length buffer.new) }
        ensures ok { IfOk result (λ n. Reads self.old self.new handle n buffer.new) }
        ensures fault { OnErr result (self.new ≡ with_read_fault self.old) }
        ensures counts { MayFailReading self.old.counts self.new.counts result }
    {
        match self.handles[handle as usize].read(buffer) {
            Ok(count) => Ok(count),
            Err(why) => {
                let name = self.name_of(&self.handles[handle as usize]);
                let what = HostFault::Read { name, why };
                Err(fail(&mut self.counts, FaultKind::Reading, &mut self.first, what))
            }
        }
    }

    #[tactic(auto, using(crate::proofs::FaultLemmas::fails))]
    fn create(&mut self, name: &str) -> Result<u32, DeskFault>
        ensures ok { IfOk result (Creates self.old self.new name.now) }
        ensures full { 2 ^ 32 ≤ self.old.created → IsErr result }
        ensures fault { OnErr result (self.new ≡ with_write_fault self.old) }
        ensures err { OnErr result (FailsToCreate self.old self.new name.now) }
        ensures counts { MayFailWriting self.old.counts self.new.counts result }
    {
        match self.add_out(name) {
            Ok(out) => Ok(out),
            Err(what) => Err(fail(&mut self.counts, FaultKind::Writing, &mut self.first, what)),
        }
    }

    fn write(&mut self, out: u32, piece: &[u8]) -> Result<usize, DeskFault>
        requires created { out < self.old.created }
        requires some { 0 < length piece.now }
        ensures count { IfOk result (λ n. (0 < n) × (n ≤ length piece.now)) }
        ensures ok { IfOk result (λ n. Writes self.old self.new out (take n piece.now)) }
        ensures fault { OnErr result (self.new ≡ with_write_fault self.old) }
        ensures counts { MayFailWriting self.old.counts self.new.counts result }
    {
        let why = match write_again(&mut self.outs[out as usize].file, piece) {
            Ok(count) if count > 0 => return Ok(count),
            Ok(_) => Reason::from(ErrorKind::WriteZero),
            Err(error) => Reason::from(error),
        };
        let name = self.name_of(&self.outs[out as usize]);
        let what = HostFault::Write { name, why };
        Err(fail(&mut self.counts, FaultKind::Writing, &mut self.first, what))
    }

    fn say(&mut self, text: &[u8]) -> Result<(), DeskFault>
        ensures ok { OnOk result (Says self.old self.new text.now) }
        ensures fault { OnErr result (self.new ≡ with_write_fault self.old) }
        ensures counts { MayFailWriting self.old.counts self.new.counts result }
    {
        say(
            &self.rt,
            text,
            &mut self.counts,
            FaultKind::Writing,
            &mut self.first,
        )
    }

    fn say_last(&mut self, text: &[u8])
        ensures said { (Says self.old self.new text.now × SameCounts self.old self.new)
            ⊎ (self.new ≡ with_line_fault self.old) }
        ensures counts { MayFailAtLast self.old.counts self.new.counts }
    {
        let _ = say(
            &self.rt,
            text,
            &mut self.counts,
            FaultKind::LastLine,
            &mut self.first,
        );
    }

    /// Nothing is done.
    fn note(&mut self, _note: Note)
        ensures { self.new ≡ self.old }
    {}
}
