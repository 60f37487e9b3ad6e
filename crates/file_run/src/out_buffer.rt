// Bytes that a machine gave and that are not written or said yet.
ghost use Rattle.std.specs.Prelude.{◌≡◌, ◌↔◌, ◌<◌, ◌≤◌, ◌+◌, ℕ, [], length, take, IfOk, IsTrue};
ghost use Rattle.file_run.specs.declared.page.TheConstants.{PAGE};
ghost use Rattle.file_run.specs.Running.{Gathers};
ghost use Rattle.file_run.specs.Steps.{HasCome};
ghost use Rattle.file_run.specs.declared.machine.Step.TheVariants.{Give};

use crate::machine::{Machine, PIECE};
use crate::page::PAGE;
use bit_slice::OutOfMemory;
use std::alloc::Global;
use std::marker::Model;

/// Bytes that a machine gave and that are not written or said yet, at most [`PAGE`], seen as a list. A machine gives
/// straight into its room. After `open` it takes no memory.
#[derive(Drop)]
pub struct OutBuffer {
    bytes: Vec<u8>,
    // How many wait, at the front.
    count: usize,
}

impl Model for OutBuffer {
    ghost use Rattle.std.specs.Prelude.{◌≡◌, ◌≤◌, List, ℕ, take, vec_len};
    ghost use Rattle.file_run.specs.declared.page.TheConstants.{PAGE};

    ghost Value = { List ℕ };

    ghost view = { λ b. take b.count b.bytes.items };

    ghost invariant = { λ b. (b.count ≤ PAGE) × (vec_len b.bytes ≡ PAGE) };
}

// Lets a machine give bytes behind so many: how many there are then.
fn give_behind<M: Machine>(bytes: &mut [u8], count: usize, machine: &mut M) -> usize
    requires gives { M.next machine.old ≡ Give }
    requires came { ∥ HasCome M.Becomes machine.old ∥₁ }
    requires size { length bytes.old ≡ PAGE }
    requires room { count + PIECE ≤ PAGE }
    ensures gathers { Gathers M.Becomes machine.old machine.new (take count bytes.old) (take result bytes.new) }
    ensures few { result ≤ PAGE }
    ensures left { M.left machine.new < M.left machine.old }
    ensures reach { (other : ℕ) → M.reach machine.old other ≤ M.reach machine.new other }
{
    count + machine.give(&mut bytes[count..])
}

impl OutBuffer {
    /// No bytes, and the memory for them. Its one refusal is want of memory.
    pub fn open(alloc: Global) -> Result<OutBuffer, OutOfMemory>
        ensures { IfOk result (λ b. b ≡ []) }
    {
        let bytes = vec![in alloc; 0; PAGE]?;
        Ok(OutBuffer { bytes, count: 0 })
    }

    /// Whether there is room for a piece.
    pub fn has_room(&self) -> bool
        ensures { IsTrue result ↔ (length self.now + PIECE ≤ PAGE) }
    {
        PAGE - self.count >= PIECE
    }

    /// The bytes that wait.
    pub fn as_bytes(&self) -> &[u8]
        ensures { result.now ≡ self.now }
    {
        &self.bytes[..self.count]
    }

    /// Forgets all bytes that wait.
    pub fn clear(&mut self)
        ensures { self.new ≡ [] }
    {
        self.count = 0;
    }

    /// Lets a machine give bytes behind those that wait.
    pub fn take_from<M: Machine>(&mut self, machine: &mut M)
        requires gives { M.next machine.old ≡ Give }
        requires came { ∥ HasCome M.Becomes machine.old ∥₁ }
        requires room { length self.old + PIECE ≤ PAGE }
        ensures gathers { Gathers M.Becomes machine.old machine.new self.old self.new }
        ensures few { length self.new ≤ PAGE }
        ensures left { M.left machine.new < M.left machine.old }
        ensures reach { (other : ℕ) → M.reach machine.old other ≤ M.reach machine.new other }
    {
        self.count = give_behind(&mut self.bytes, self.count, machine);
    }
}
