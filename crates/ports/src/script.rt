// Which calls of a desk in memory fail.
ghost use Rattle.std.specs.Prelude.{◌≡◌, ◌↔◌, OnOk, OnErr, IsTrue};
ghost use Rattle.ports.specs.Calls.{IsListed, one_call, with_listed};

use bit_slice::OutOfMemory;
use std::alloc::Global;
use std::marker::Model;

/// The kinds of calls of a desk.
#[derive(Clone, Copy, Debug, PartialEq, Eq)]
pub enum CallKind {
    /// Opening a file.
    Open,
    /// Making an empty file.
    Create,
    /// Reading.
    Read,
    /// Writing.
    Write,
    /// Saying a text.
    Say,
    /// Saying the last text.
    Last,
}

/// The calls of one kind: how many there were, and the numbers of those that fail.
#[derive(Drop)]
struct Calls {
    count: u64,
    listed: Vec<u64>,
}

impl Model for Calls {
    ghost use Rattle.ports.specs.Calls.{KindCalls};
    ghost use Rattle.ports.specs.CallsCode.{calls_code};

    ghost Value = { KindCalls };

    ghost coded = { calls_code };

    ghost view = { λ c. record { count = c.count; listed = c.listed.items } };
}

impl Calls {
    ghost use Rattle.ports.specs.Calls.{no_calls};

    // No calls, of which none is to fail.
    fn new(alloc: Global) -> Calls
        ensures { result ≡ no_calls }
    {
        Calls {
            count: 0,
            listed: Vec::new(alloc),
        }
    }

    // Lists a call to fail.
    fn list(&mut self, nth: u64) -> Result<(), OutOfMemory>
        ensures ok { OnOk result (self.new ≡ with_listed nth self.old) }
        ensures err { OnErr result (self.new ≡ self.old) }
    {
        self.listed.push(nth)?;
        Ok(())
    }

    // Counts one more call, and tells whether it is one of those that fail.
    fn strikes(&mut self) -> bool
        ensures listed { IsTrue result ↔ IsListed self.old }
        ensures called { self.new ≡ one_call self.old }
    {
        self.count = self.count.saturating_add(1);
        self.listed.contains(&self.count)
    }
}

/// The calls of each kind.
#[derive(Drop)]
pub(crate) struct Script {
    opens: Calls,
    creates: Calls,
    reads: Calls,
    writes: Calls,
    says: Calls,
    lasts: Calls,
}

impl Script {
    ghost use Rattle.ports.specs.Script.{Strikes, listed_at, no_script, one_call_of};

    /// No calls of any kind, of which none is to fail.
    #[tactic(auto, unfolding(crate::specs::Script::no_script))]
    pub(crate) fn new(alloc: Global) -> Script
        ensures { result ≡ no_script }
    {
        Script {
            opens: Calls::new(alloc),
            creates: Calls::new(alloc),
            reads: Calls::new(alloc),
            writes: Calls::new(alloc),
            says: Calls::new(alloc),
            lasts: Calls::new(alloc),
        }
    }

    /// Lists a call of a kind to fail.
    #[tactic(auto, unfolding(crate::specs::Script::listed_at))]
    pub(crate) fn list(&mut self, kind: CallKind, nth: u64) -> Result<(), OutOfMemory>
        ensures ok { OnOk result (self.new ≡ listed_at kind nth self.old) }
        ensures err { OnErr result (self.new ≡ self.old) }
    {
        match kind {
            CallKind::Open => self.opens.list(nth),
            CallKind::Create => self.creates.list(nth),
            CallKind::Read => self.reads.list(nth),
            CallKind::Write => self.writes.list(nth),
            CallKind::Say => self.says.list(nth),
            CallKind::Last => self.lasts.list(nth),
        }
    }

    /// Counts one more call of a kind, and tells whether it is one of those that fail.
    #[tactic(auto, unfolding(crate::specs::Script::Strikes, crate::specs::Script::one_call_of))]
    pub(crate) fn strikes(&mut self, kind: CallKind) -> bool
        ensures listed { IsTrue result ↔ Strikes kind self.old }
        ensures called { self.new ≡ one_call_of kind self.old }
    {
        match kind {
            CallKind::Open => self.opens.strikes(),
            CallKind::Create => self.creates.strikes(),
            CallKind::Read => self.reads.strikes(),
            CallKind::Write => self.writes.strikes(),
            CallKind::Say => self.says.strikes(),
            CallKind::Last => self.lasts.strikes(),
        }
    }
}
