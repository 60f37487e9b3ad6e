// A desk in memory.
ghost use Rattle.std.specs.Prelude.{◌≡◌, ◌⊎◌, min, option_map, ◌<◌, ◌≤◌, ◌+◌, ◌-◌, ◌^◌, ◌++◌, ◌∷◌, ◌↔◌, [], length};
ghost use Rattle.std.specs.Prelude.{map, vec_len, vec_capacity, take, false, option_copied, IfSome, OnOk, OnErr};
ghost use Rattle.std.specs.Prelude.{string_bytes};
ghost use Rattle.std.specs.List.{concat};
ghost use Rattle.ports.specs.MemoryDesk.{given_by};
ghost use Rattle.ports.specs.Stored.{files_of};

use crate::fault::fault;
use crate::memory_files::{Handle, append, find, given_by, make_empty, set, text};
use crate::script::Script;
use crate::{CallKind, Counts, Desk, DeskFault, FaultKind, Note};
use bit_slice::OutOfMemory;
use std::alloc::Global;
use std::collections::BTreeMap;
use std::marker::Model;

/// A desk in memory. It tells all that it holds and each text that was said.
#[derive(Drop)]
pub struct MemoryDesk {
    alloc: Global,
    files: BTreeMap<String, Vec<u8>>,
    handles: Vec<Handle>,
    // The names of the files that are written.
    outs: Vec<String>,
    texts: Vec<Vec<u8>>,
    // The texts, joined.
    said: Vec<u8>,
    // How many bytes a read or a write moves at most.
    cap: usize,
    script: Script,
    counts: Counts,
}

impl Model for MemoryDesk {
    ghost use Rattle.std.specs.Prelude.{◌≡◌, ◌<◌, Some, map, string_bytes, vec_len};
    ghost use Rattle.std.specs.List.{concat};
    ghost use Rattle.ports.specs.MemoryDesk.{Memory};
    ghost use Rattle.ports.specs.StateCode.{memory_code};
    ghost use Rattle.ports.specs.Stored.{files_of};

    ghost Value = { Memory };

    ghost coded = { memory_code };

    ghost view = { λ m. record {
      state = record {
        held = Some (record {
          files = files_of m.files;
          names = map (λ handle. string_bytes handle.name) m.handles.items;
          outs = map (λ name. string_bytes name) m.outs.items;
        });
        said = Some (map (λ text. text.items) m.texts.items);
        opened = map (λ handle. handle.place) m.handles.items;
        ended = map (λ handle. handle.ended) m.handles.items;
        created = vec_len m.outs;
        counts = m.counts;
      };
      cap = m.cap;
      script = m.script;
    } };

    ghost invariant = { λ m. (0 < m.cap) × (concat (map (λ text. text.items) m.texts.items) ≡ m.said.items) };
}

// Adds a name, for which there is room.
fn push_name(names: &mut Vec<String>, name: String)
    requires { vec_len names.old < vec_capacity names.old }
    ensures names { map (λ text. string_bytes text) names.new.items
        ≡ map (λ text. string_bytes text) names.old.items ++ string_bytes name ∷ [] }
    ensures len { vec_len names.new ≡ vec_len names.old + 1 }
{
    names.push(name).unwrap();
}

// Adds a text, for which there is room.
fn push_text(texts: &mut Vec<Vec<u8>>, text: Vec<u8>)
    requires { vec_len texts.old < vec_capacity texts.old }
    ensures { map (λ text. text.items) texts.new.items ≡ map (λ text. text.items) texts.old.items ++ text.items ∷ [] }
{
    texts.push(text).unwrap();
}

// Adds a text to those that were said, if memory is found.
fn add_text(
    alloc: Global,
    texts: &mut Vec<Vec<u8>>,
    said: &mut Vec<u8>,
    text: &[u8],
) -> Result<(), OutOfMemory>
    requires { concat (map (λ text. text.items) texts.old.items) ≡ said.old.items }
    ensures ok { OnOk result
        (map (λ text. text.items) texts.new.items ≡ map (λ text. text.items) texts.old.items ++ text.now ∷ []) }
    ensures err { OnErr result (map (λ text. text.items) texts.new.items ≡ map (λ text. text.items) texts.old.items) }
    ensures joined { concat (map (λ text. text.items) texts.new.items) ≡ said.new.items }
{
    let own = Vec::from_slice(alloc, text)?;
    texts.reserve(1)?;
    said.extend_from_slice(text)?;
    push_text(texts, own);
    Ok(())
}

impl MemoryDesk {
    ghost use Rattle.std.specs.Prelude.{Some, IsSome, IsNone, IfNone};
    ghost use Rattle.ports.specs.Desk.{SameCounts, Opens, Creates, Says, file_of};
    ghost use Rattle.ports.specs.MemoryDesk.{empty_memory, given_of, with_failing, with_file};

    /// A desk with no file, on which nothing was done.
    pub fn new(alloc: Global) -> MemoryDesk
        ensures { result ≡ empty_memory }
    {
        MemoryDesk {
            alloc,
            files: BTreeMap::new(alloc),
            handles: Vec::new(alloc),
            outs: Vec::new(alloc),
            texts: Vec::new(alloc),
            said: Vec::new(alloc),
            cap: usize::MAX,
            script: Script::new(alloc),
            counts: Counts::default(),
        }
    }

    /// Sets a file, in the place of one of that name.
    pub fn put_file(&mut self, name: &str, bytes: &[u8]) -> Result<(), OutOfMemory>
        ensures ok { OnOk result (self.new ≡ with_file name.now bytes.now self.old) }
        ensures err { OnErr result (self.new ≡ self.old) }
    {
        let name = String::from_str(self.alloc, name)?;
        let bytes = Vec::from_slice(self.alloc, bytes)?;
        set(&mut self.files, name, bytes)
    }

    /// Makes each read and write from now on move at most so many bytes, as devices do.
    pub fn cap(&mut self, most: usize)
        requires { 0 < most }
        ensures { self.new ≡ record self.old { cap = most } }
    {
        self.cap = most;
    }

    /// Lists a call to fail: the nth of its kind since the desk was made, counted from 1. Each call after number 2^64 -
    /// 1 counts as that number; a number of a call that has been lists nothing.
    pub fn fail(&mut self, kind: CallKind, nth: u64) -> Result<(), OutOfMemory>
        ensures ok { OnOk result (self.new ≡ with_failing kind nth self.old) }
        ensures err { OnErr result (self.new ≡ self.old) }
    {
        self.script.list(kind, nth)
    }

    /// How many bytes the reads of a file gave so far over all handles, at most 2^64 - 1.
    pub fn given(&self, name: &str) -> u64
        ensures { option_map (min (2 ^ 64 - 1)) (given_of self.now.state name.now) ≡ Some result }
    {
        given_by(&self.handles, name)
    }

    /// The bytes of a file, or None if there is none of that name.
    pub fn file(&self, name: &str) -> Option<&[u8]>
        ensures file { option_copied result ≡ file_of self.now.state name.now }
        ensures told { IsSome self.now.state.held }
    {
        find(&self.files, name)
    }

    /// The texts that were said, one for each call.
    pub fn texts(&self) -> &[Vec<u8>]
        ensures { self.now.state.said ≡ Some (map (λ text. text.items) result.now) }
    {
        &self.texts
    }

    /// What was said, however many calls it took.
    pub fn said(&self) -> &[u8]
        ensures { option_map concat self.now.state.said ≡ Some result.now }
    {
        &self.said
    }

    // Says a text, if memory is found.
    fn add(&mut self, text: &[u8]) -> Result<(), OutOfMemory>
        ensures ok { OnOk result (Says self.old.state self.new.state text.now) }
        ensures err { OnErr result (self.new ≡ self.old) }
        ensures counts { SameCounts self.old.state self.new.state }
        ensures rest { self.new ≡ record self.old { state = self.new.state } }
    {
        add_text(self.alloc, &mut self.texts, &mut self.said, text)
    }

    // Opens a file as the next handle, if it can.
    fn add_handle(&mut self, name: &str) -> Option<u32>
        ensures some { IfSome result (Opens self.old.state self.new.state name.now) }
        ensures none { IfNone result (self.new ≡ self.old) }
        ensures counts { SameCounts self.old.state self.new.state }
        ensures rest { self.new ≡ record self.old { state = self.new.state } }
        ensures absent { IsNone (file_of self.old.state name.now) → IsNone result }
        ensures full { 2 ^ 32 - 1 ≤ length self.old.state.opened → IsNone result }
    {
        let at = self.handles.len();
        if at >= u32::MAX as usize || find(&self.files, name).is_none() {
            return None;
        }
        let name = String::from_str(self.alloc, name).ok()?;
        self.handles
            .push(Handle {
                name,
                place: 0,
                ended: false,
            })
            .ok()?;
        Some(at as u32)
    }

    // Makes an empty file and gives the next handle for writing, if it can.
    fn add_out(&mut self, name: &str) -> Option<u32>
        ensures some { IfSome result (Creates self.old.state self.new.state name.now) }
        ensures none { IfNone result (self.new ≡ self.old) }
        ensures counts { SameCounts self.old.state self.new.state }
        ensures rest { self.new ≡ record self.old { state = self.new.state } }
        ensures full { 2 ^ 32 - 1 ≤ self.old.state.created → IsNone result }
    {
        let at = self.outs.len();
        if at >= u32::MAX as usize {
            return None;
        }
        let out = text(self.alloc, name)?;
        self.outs.reserve(1).ok()?;
        if !make_empty(&mut self.files, self.alloc, name) {
            return None;
        }
        push_name(&mut self.outs, out);
        Some(at as u32)
    }
}

/// A call that was listed to fail is a fault, which does nothing but count.
impl Desk for MemoryDesk {
    ghost use Rattle.std.specs.Prelude.{IsNone, IsErr, IfOk, OnOk, OnErr};
    ghost use Rattle.ports.specs.Desk.{SameCounts, Opens, Creates, FailsToCreate, Reads, Writes, Says, file_of};
    ghost use Rattle.ports.specs.Desk.{has_run_out};
    ghost use Rattle.ports.specs.Counts.{MayFailReading, MayFailWriting, MayFailAtLast};
    ghost use Rattle.ports.specs.MemoryDesk.{Gives, after_call, fails_reading, fails_writing, fails_at_last};
    ghost use Rattle.ports.specs.Script.{Strikes};

    ghost state = { λ m. m.state };

    /// Beside a listed call and want of memory, an absent name and the handle after 2^32 - 1 others are faults.
    fn open(&mut self, name: &str) -> Result<u32, DeskFault>
        ensures ok { IfOk result (Opens self.old.state self.new.state name.now) }
        ensures listed { Strikes CallKind.Open self.old.script → IsErr result }
        ensures absent { IsNone (file_of self.old.state name.now) → IsErr result }
        ensures full { 2 ^ 32 - 1 ≤ length self.old.state.opened → IsErr result }
        ensures fault { OnErr result (self.new ≡ fails_reading (after_call CallKind.Open self.old)) }
        ensures counts { MayFailReading self.old.state.counts self.new.state.counts result }
        ensures rest { self.new ≡ record (after_call CallKind.Open self.old) { state = self.new.state } }
    {
        if !self.script.strikes(CallKind::Open) {
            if let Some(handle) = self.add_handle(name) {
                return Ok(handle);
            }
        }
        Err(fault(&mut self.counts, FaultKind::Reading))
    }

    /// A fault exactly if it was listed.
    fn read(&mut self, handle: u32, buffer: &mut [u8]) -> Result<usize, DeskFault>
        requires opened { handle < length self.old.state.opened }
        requires going { has_run_out self.old.state handle ≡ false }
        requires room { 0 < length buffer.old }
        ensures count { IfOk result (λ n. n ≤ length buffer.new) }
        ensures moved { IfOk result (λ n. n ≤ self.old.cap) }
        ensures ok { IfOk result (λ n. Reads self.old.state self.new.state handle n buffer.new) }
        ensures given { IfOk result (λ n. Gives self.old.state self.new.state handle n) }
        ensures listed { IsErr result ↔ Strikes CallKind.Read self.old.script }
        ensures fault { OnErr result (self.new ≡ fails_reading (after_call CallKind.Read self.old)) }
        ensures counts { MayFailReading self.old.state.counts self.new.state.counts result }
        ensures rest { self.new ≡ record (after_call CallKind.Read self.old) { state = self.new.state } }
    {
        if self.script.strikes(CallKind::Read) {
            return Err(fault(&mut self.counts, FaultKind::Reading));
        }
        let most = self.cap;
        Ok(self.handles[handle as usize].read(&self.files, buffer, most))
    }

    /// Beside a listed call and want of memory, the handle after 2^32 - 1 others is a fault. After a fault the file is
    /// as it was.
    #[tactic(auto, using(crate::proofs::FaultLemmas::fails))]
    fn create(&mut self, name: &str) -> Result<u32, DeskFault>
        ensures ok { IfOk result (Creates self.old.state self.new.state name.now) }
        ensures listed { Strikes CallKind.Create self.old.script → IsErr result }
        ensures full { 2 ^ 32 - 1 ≤ self.old.state.created → IsErr result }
        ensures fault { OnErr result (self.new ≡ fails_writing (after_call CallKind.Create self.old)) }
        ensures err { OnErr result (FailsToCreate self.old.state self.new.state name.now) }
        ensures counts { MayFailWriting self.old.state.counts self.new.state.counts result }
        ensures rest { self.new ≡ record (after_call CallKind.Create self.old) { state = self.new.state } }
    {
        if !self.script.strikes(CallKind::Create) {
            if let Some(out) = self.add_out(name) {
                return Ok(out);
            }
        }
        Err(fault(&mut self.counts, FaultKind::Writing))
    }

    /// A listed call and want of memory are faults.
    fn write(&mut self, out: u32, piece: &[u8]) -> Result<usize, DeskFault>
        requires created { out < self.old.state.created }
        requires some { 0 < length piece.now }
        ensures count { IfOk result (λ n. (0 < n) × (n ≤ length piece.now)) }
        ensures moved { IfOk result (λ n. n ≤ self.old.cap) }
        ensures ok { IfOk result (λ n. Writes self.old.state self.new.state out (take n piece.now)) }
        ensures listed { Strikes CallKind.Write self.old.script → IsErr result }
        ensures fault { OnErr result (self.new ≡ fails_writing (after_call CallKind.Write self.old)) }
        ensures counts { MayFailWriting self.old.state.counts self.new.state.counts result }
        ensures rest { self.new ≡ record (after_call CallKind.Write self.old) { state = self.new.state } }
    {
        let listed = self.script.strikes(CallKind::Write);
        let count = piece.len().min(self.cap);
        let name = self.outs[out as usize].as_str();
        if !listed && append(&mut self.files, name, &piece[..count]) {
            return Ok(count);
        }
        Err(fault(&mut self.counts, FaultKind::Writing))
    }

    /// A listed call and want of memory are faults.
    fn say(&mut self, text: &[u8]) -> Result<(), DeskFault>
        ensures ok { OnOk result (Says self.old.state self.new.state text.now) }
        ensures listed { Strikes CallKind.Say self.old.script → IsErr result }
        ensures fault { OnErr result (self.new ≡ fails_writing (after_call CallKind.Say self.old)) }
        ensures counts { MayFailWriting self.old.state.counts self.new.state.counts result }
        ensures rest { self.new ≡ record (after_call CallKind.Say self.old) { state = self.new.state } }
    {
        if self.script.strikes(CallKind::Say) || self.add(text).is_err() {
            return Err(fault(&mut self.counts, FaultKind::Writing));
        }
        Ok(())
    }

    /// A listed call and want of memory are faults.
    fn say_last(&mut self, text: &[u8])
        ensures said { (Says self.old.state self.new.state text.now × SameCounts self.old.state self.new.state)
            ⊎ (self.new ≡ fails_at_last (after_call CallKind.Last self.old)) }
        ensures listed { Strikes CallKind.Last self.old.script
            → self.new ≡ fails_at_last (after_call CallKind.Last self.old) }
        ensures counts { MayFailAtLast self.old.state.counts self.new.state.counts }
        ensures rest { self.new ≡ record (after_call CallKind.Last self.old) { state = self.new.state } }
    {
        if self.script.strikes(CallKind::Last) || self.add(text).is_err() {
            fault(&mut self.counts, FaultKind::LastLine);
        }
    }

    /// Nothing is done.
    fn note(&mut self, _note: Note)
        ensures { self.new ≡ self.old }
    {}
}
