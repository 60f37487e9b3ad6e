// The input of one PLP.
ghost use Rattle.std.specs.Prelude.{◌≡◌, ◌<◌, ◌≤◌, ◌+◌, ◌^◌, ℕ, Some, length};
ghost use Rattle.linked_pool.specs.Pool.{Others, IsWhole};
ghost use Rattle.mode_adapt.specs.Calls.{TakesIfReady, EndsIfReady};
ghost use Rattle.mode_adapt.specs.StandsFor.{slot_of, most_blocks};
ghost use Rattle.gateway_core.specs.Lists.{bits_in, AllShort};
ghost use Rattle.gateway_core.specs.Served.{IsServed};

use bit_slice::OutOfMemory;
use linked_pool::Pool;
use mode_adapt::{Chain, blocks_law};
use plp_config::{Plan, length_law, slot_time_law, spread_law};
use std::alloc::Global;
use ts_packet::TsPacket;

/// The packets of a PLP on their way into its chain.
#[derive(Drop)]
pub struct Input {
    chain: Chain,
    // The slots that are over when the next frame begins.
    due: u64,
    // The slot of the next packet.
    slot: u64,
    // How many packets there were, once the input ended.
    total: Option<u64>,
    ghost next: { slot_of chain ≡ slot },
    ghost within: { slot ≤ due },
    ghost small: { due < 2 ^ 54 },
    ghost behind: { (count : ℕ) → total ≡ Some count → count ≤ due },
}

// Gives a chain the packet of the next slot. A pool that is ready has room for every block.
fn offer_to(chain: &mut Chain, packet: &TsPacket, pool: &mut Pool, list: u32)
    requires slot { slot_of chain.old < 2 ^ 54 }
    requires list { list < length pool.old.lists }
    requires ready { ∥ IsServed chain.old pool.old list ∥₁ }
    ensures takes { TakesIfReady chain.old chain.new packet.now pool.old pool.new list }
    ensures slots { slot_of chain.new ≡ slot_of chain.old + 1 }
    ensures most { most_blocks chain.new ≡ most_blocks chain.old }
    ensures short { AllShort pool.old → AllShort pool.new }
    ensures others { Others pool.old pool.new list }
    ensures whole { IsWhole pool.new }
{
    chain.offer(packet, pool, list).unwrap();
}

// Ends the next interleaving frame: how many blocks it has. A pool that is ready has room for every one.
fn end_frame(chain: &mut Chain, pool: &mut Pool, list: u32) -> u16
    requires list { list < length pool.old.lists }
    requires ready { ∥ IsServed chain.old pool.old list ∥₁ }
    ensures ends { EndsIfReady chain.old chain.new pool.old pool.new list result }
    ensures few { result ≤ most_blocks chain.old }
    ensures slots { slot_of chain.new ≡ slot_of chain.old }
    ensures most { most_blocks chain.new ≡ most_blocks chain.old }
    ensures short { AllShort pool.old → AllShort pool.new }
    ensures others { Others pool.old pool.new list }
    ensures whole { IsWhole pool.new }
{
    chain.cut(pool, list).unwrap() as u16
}

impl Input {
    ghost use Rattle.std.specs.Prelude.{◌≡◌, ◌<◌, ◌≤◌, ◌+◌, ◌*◌, ◌^◌, ℕ, List, Bool, [], true, false, length, IfOk};
    ghost use Rattle.std.specs.Prelude.{IfSome, is_some};
    ghost use Rattle.linked_pool.specs.Pool.{Others, IsWhole};
    ghost use Rattle.plp_config.specs.InterleavingFrames.{is_first};
    ghost use Rattle.plp_config.specs.Plps.{plp_at};
    ghost use Rattle.plp_config.specs.Capacity.{IsPlan};
    ghost use Rattle.plp_config.specs.SlotTime.{slots_by};
    ghost use Rattle.plp_config.specs.declared.config.Config.{Config};
    ghost use Rattle.mode_adapt.specs.Place.{HasPlace};
    ghost use Rattle.gateway_core.specs.InputSoFar.{Told, with_packet, at_end, in_next};
    ghost use Rattle.gateway_core.specs.IsFed.{IsFed, IsSupplied, wanted, most, bounds_of};
    ghost use Rattle.gateway_core.specs.InputsStandFor.{HasCut};

    /// An input of no packets yet, for the PLP at a place of the plan. No later call takes memory.
    pub fn open(alloc: Global, plan: &Plan, plp: usize) -> Result<Input, OutOfMemory>
        requires { plp < length plan.now.plps }
        ensures fed { IfOk result (λ i. IsFed i plan.now plp (record { packets = []; ended = false; frame = 0 }) []) }
        ensures most { IfOk result (λ i. most i ≡ (plp_at plan.now.plps plp).blocks) }
    {
        slot_time_law();
        length_law();
        plan.rules_law();
        Ok(Input {
            chain: Chain::open(alloc, plan, plp)?,
            due: 0,
            slot: 0,
            total: None,
        })
    }

    /// How many packets the next frame still wants.
    pub fn wanted(&self) -> u64
        ensures { result ≡ wanted self.now }
    {
        match self.total {
            Some(_) => 0,
            None => self.due - self.slot,
        }
    }

    /// How many packets there were, once the input ended.
    pub fn total(&self) -> Option<u64>
        ensures total { result ≡ self.now.total }
        ensures small { IfSome result (λ total. total < 2 ^ 54) }
    {
        self.total
    }

    /// Takes the packet of the next slot. The list has the blocks that the chain put of the next interleaving frame.
    pub fn offer(&mut self, packet: &TsPacket, pool: &mut Pool, list: u32)
        requires wanted { 0 < wanted self.old }
        requires list { list < length pool.old.lists }
        requires ready { ∥ IsSupplied self.old pool.old list ∥₁ }
        ensures fed { (c : Config) (plp : ℕ) (t : Told) → HasPlace c plp pool.old list
            → IsFed self.old c plp t (bits_in pool.old list)
            → IsFed self.new c plp (with_packet t packet.now) (bits_in pool.new list) }
        ensures wanted { wanted self.new + 1 ≡ wanted self.old }
        ensures bounds { bounds_of self.new ≡ bounds_of self.old }
        ensures short { AllShort pool.old → AllShort pool.new }
        ensures others { Others pool.old pool.new list }
        ensures whole { IsWhole pool.new }
    {
        offer_to(&mut self.chain, packet, pool, list);
        self.slot += 1;
    }

    /// The input has ended.
    pub fn end(&mut self)
        ensures fed { (c : Config) (plp : ℕ) (t : Told) (early : List (List Bool)) → IsFed self.old c plp t early
            → IsFed self.new c plp (at_end t) early }
        ensures wanted { wanted self.new ≡ 0 }
        ensures bounds { bounds_of self.new ≡ record (bounds_of self.old) { total = self.new.total } }
    {
        if self.total.is_none() {
            self.total = Some(self.slot);
        }
    }

    // Gives the chain a null packet, behind the end of the input.
    fn offer_null(&mut self, pool: &mut Pool, list: u32)
        requires before { self.old.slot < self.old.due }
        requires list { list < length pool.old.lists }
        requires ended { is_some self.old.total ≡ true }
        requires ready { ∥ IsSupplied self.old pool.old list ∥₁ }
        ensures fed { (c : Config) (plp : ℕ) (t : Told) → t.ended ≡ true → HasPlace c plp pool.old list
            → IsFed self.old c plp t (bits_in pool.old list)
            → IsFed self.new c plp t (bits_in pool.new list) }
        ensures ready { ∥ IsSupplied self.new pool.new list ∥₁ }
        ensures slot { self.new.slot ≡ self.old.slot + 1 }
        ensures bounds { bounds_of self.new ≡ bounds_of self.old }
        ensures short { AllShort pool.old → AllShort pool.new }
        ensures others { Others pool.old pool.new list }
    {
        offer_to(&mut self.chain, &TsPacket::canonical(), pool, list);
        self.slot += 1;
    }

    // Null packets up to the slots that are over.
    fn fill(&mut self, pool: &mut Pool, list: u32)
        requires list { list < length pool.old.lists }
        requires ended { is_some self.old.total ≡ true }
        requires ready { ∥ IsSupplied self.old pool.old list ∥₁ }
        ensures ready { ∥ IsSupplied self.new pool.new list ∥₁ }
        ensures fed { (c : Config) (plp : ℕ) (t : Told) → t.ended ≡ true → HasPlace c plp pool.old list
            → IsFed self.old c plp t (bits_in pool.old list)
            → IsFed self.new c plp t (bits_in pool.new list) }
        ensures full { self.new.slot ≡ self.new.due }
        ensures bounds { bounds_of self.new ≡ bounds_of self.old }
        ensures short { AllShort pool.old → AllShort pool.new }
        ensures others { Others pool.old pool.new list }
    {
        for _ in self.slot..self.due {
            self.offer_null(pool, list);
        }
    }

    // Null packets, if the input ended.
    fn complete(&mut self, pool: &mut Pool, list: u32)
        requires wanted { wanted self.old ≡ 0 }
        requires list { list < length pool.old.lists }
        requires ready { ∥ IsSupplied self.old pool.old list ∥₁ }
        ensures ready { ∥ IsSupplied self.new pool.new list ∥₁ }
        ensures fed { (c : Config) (plp : ℕ) (t : Told) → HasPlace c plp pool.old list
            → IsFed self.old c plp t (bits_in pool.old list)
            → IsFed self.new c plp t (bits_in pool.new list) }
        ensures full { self.new.slot ≡ self.new.due }
        ensures bounds { bounds_of self.new ≡ bounds_of self.old }
        ensures short { AllShort pool.old → AllShort pool.new }
        ensures others { Others pool.old pool.new list }
    {
        if self.total.is_some() {
            self.fill(pool, list);
        }
    }

    /// Puts what is left of the interleaving frame that begins in the next frame, and goes on to the frame behind it,
    /// by whose begin so many slots are over; the answer is how many blocks the interleaving frame has. An input that
    /// ended has null packets. The list has the blocks that the chain put of it.
    pub fn cut(&mut self, due: u64, pool: &mut Pool, list: u32) -> u16
        requires wanted { wanted self.old ≡ 0 }
        requires small { due < 2 ^ 54 }
        requires list { list < length pool.old.lists }
        requires ready { ∥ IsSupplied self.old pool.old list ∥₁ }
        ensures cut { (c : Config) (plp : ℕ) (t : Told) → IsPlan c → plp < length c.plps → HasPlace c plp pool.old list
            → is_first c plp t.frame ≡ true → due ≡ slots_by c plp ((t.frame + 1) * c.ticks)
            → IsFed self.old c plp t (bits_in pool.old list) → HasCut self.new c plp t pool.new result }
        ensures few { result ≤ most self.old }
        ensures bounds { bounds_of self.new ≡ record (bounds_of self.old) { due = self.new.due } }
        ensures short { AllShort pool.old → AllShort pool.new }
        ensures others { Others pool.old pool.new list }
        ensures whole { IsWhole pool.new }
    {
        blocks_law();
        slot_time_law();
        length_law();
        spread_law();
        self.complete(pool, list);
        let count = end_frame(&mut self.chain, pool, list);
        // They never become fewer.
        self.due = self.due.max(due);
        count
    }

    /// Goes on behind the next frame, in which no interleaving frame begins, to the one by whose begin so many slots
    /// are over.
    pub fn pass(&mut self, due: u64)
        requires { due < 2 ^ 54 }
        ensures fed { (c : Config) (plp : ℕ) (t : Told) (early : List (List Bool)) → IsPlan c → plp < length c.plps
            → is_first c plp t.frame ≡ false → due ≡ slots_by c plp ((t.frame + 1) * c.ticks)
            → IsFed self.old c plp t early → IsFed self.new c plp (in_next t) early }
        ensures bounds { bounds_of self.new ≡ record (bounds_of self.old) { due = self.new.due } }
    {
        slot_time_law();
        length_law();
        spread_law();
        self.due = self.due.max(due);
    }
}
