// The group under way.
ghost use Rattle.std.specs.Prelude.{◌≡◌, length};
ghost use Rattle.l1_signal.specs.L1Configurable.{conf_bits};
ghost use Rattle.l1_signal.specs.L1Of.{conf_of};
ghost use Rattle.frame_groups.specs.Tests.{pool_chunks};
ghost use Rattle.open_group.specs.Giving.{CanGive, CanGive-prop};
ghost use Rattle.open_group.specs.HoldsBlocks.{IsOpenFor};
ghost use Rattle.open_group.specs.HoldsPast.{AreSized};

use crate::blocks::HeldBlocks;
use crate::faults::first_fault;
use crate::l1::HeldL1;
use crate::named::named;
use crate::past::HeldPast;
use crate::signalling::Configurable;
use crate::stamps::HeldStamps;
use crate::writer::Writer;
use bit_slice::{BitSlice, OutOfMemory};
use frame_groups::{Key, MuteCause, Network, OpenGroup, tally_law};
use linked_pool::BlockRef;
use plp_config::Plan;
use scheduler::Shape;
use std::alloc::Global;
use t2mi_packet::Packet;

/// The group under way: its key, and what its packets come to; and the record that is given of it, or of a muted frame.
/// All its memory is taken in `open`. If its blocks need more chunks than the pool has, no more of them are kept, and
/// only counted.
/// Of the groups before it knows what the blocks came to where interleaving frames began.
#[derive(Drop)]
pub struct PooledGroup<'p> {
    pub(crate) network: Network<'p>,
    key: Option<Key>,
    // Its own record was not begun.
    pub(crate) intact: bool,
    pub(crate) stamps: HeldStamps,
    pub(crate) l1: HeldL1,
    pub(crate) blocks: HeldBlocks,
    past: HeldPast,
    pub(crate) conf: Configurable,
    pub(crate) writer: Writer,
    ghost rows: { length l1.dynamic.plps ≡ length network.plps },
    ghost open: { IsOpenFor blocks (length network.plps) },
    ghost sized: { AreSized network past },
    ghost chunks: { blocks.chunks ≡ pool_chunks network },
    ghost signalling: { conf ≡ conf_bits (conf_of network) },
    // As long as it is intact, only muted records are given.
    ghost gives: { CanGive intact writer network l1.shape blocks.pool.lists } by { CanGive-prop intact writer network l1.shape blocks.pool.lists },
}

impl<'p> PooledGroup<'p> {
    ghost use Rattle.std.specs.Prelude.{◌≡◌, ◌<◌, ◌++◌, ◌∷◌, [], ℕ, List, Option, Some, None, true, IfOk, is_some};
    ghost use Rattle.std.specs.Prelude.{length};
    ghost use Rattle.t2mi_packet.specs.T2miPacket.{Fits};
    ghost use Rattle.t2mi_packet.specs.declared.packet.Packet.{Packet};
    ghost use Rattle.frame_groups.specs.Groups.{Group};
    ghost use Rattle.frame_groups.specs.Modulated.{Numbered};
    ghost use Rattle.frame_groups.specs.Sequenced.{IsAbove, past_of};
    ghost use Rattle.open_group.specs.Holds.{HoldsPackets, Holds};
    ghost use Rattle.open_group.specs.HoldsPast.{HoldsPast};

    /// A group in a network of this plan: none yet. It takes all the memory that a group needs.
    pub fn open(alloc: Global, plan: &'p Plan) -> Result<PooledGroup<'p>, OutOfMemory>
        ensures holds { IfOk result (λ group. Holds group [] None) }
        ensures network { IfOk result (λ group. group.network ≡ plan.now) }
        ensures intact { IfOk result (λ group. group.intact ≡ true) }
    {
        Ok(PooledGroup {
            network: Network::open(alloc, plan)?,
            key: None,
            intact: true,
            stamps: HeldStamps::NONE,
            l1: HeldL1::open(alloc, plan)?,
            blocks: HeldBlocks::open(alloc, plan)?,
            past: HeldPast::open(alloc, plan)?,
            conf: Configurable::open(alloc, plan)?,
            writer: Writer::open(alloc)?,
        })
    }

    // Notes the group that there is, if it has a number: it comes before the next one.
    fn note(&mut self, number: Option<u64>)
        requires { is_some number ≡ true → is_some self.old.key ≡ true }
        ensures past { (past : List Numbered) (g : Option Group) → Holds self.old past g
            → ((n : ℕ) → number ≡ Some n → IsAbove past n)
            → HoldsPast self.new.network self.new.past (past_of past g number) }
        ensures network { self.new.network ≡ self.old.network }
    {
        match number {
            Some(number) => self.past.note(self.network.plan(), number, &self.blocks),
            None => {}
        }
    }

    // Holds no packets.
    fn clear(&mut self)
        requires { self.old.intact ≡ true }
        ensures holds { HoldsPackets self.new [] }
        ensures key { self.new.key ≡ self.old.key }
        ensures network { self.new.network ≡ self.old.network }
        ensures intact { self.new.intact ≡ self.old.intact }
        ensures others { (self.new.writer ≡ self.old.writer) × (self.new.conf ≡ self.old.conf)
            × (self.new.past ≡ self.old.past) }
    {
        self.stamps = HeldStamps::NONE;
        self.l1.clear();
        self.blocks.clear(self.network.plan());
    }

    // Holds one packet more.
    fn hold(&mut self, packet: &Packet<'_>)
        requires fits { Fits packet.now }
        requires intact { self.old.intact ≡ true }
        ensures holds { (packets : List Packet) → HoldsPackets self.old packets
            → HoldsPackets self.new (packets ++ packet.now ∷ []) }
        ensures past { self.new.past ≡ self.old.past }
        ensures key { self.new.key ≡ self.old.key }
        ensures network { self.new.network ≡ self.old.network }
        ensures intact { self.new.intact ≡ self.old.intact }
    {
        tally_law();
        self.stamps.add(packet);
        self.l1.add(&self.network, packet);
        self.blocks.add(self.network.plan(), packet);
    }
}

impl<'p> OpenGroup for PooledGroup<'p> {
    ghost use Rattle.frame_groups.specs.Tests.{rules};
    ghost use Rattle.open_group.specs.FrameBytes.{is_frame};
    ghost use Rattle.open_group.specs.Holds.{Holds};

    ghost holds = { Holds };

    ghost key_now = { λ g. g.key };

    ghost rules = { λ g. rules g.network };

    ghost is_intact = { λ g. g.intact };

    ghost is_frame = { is_frame };

    fn frames(&self) -> u8 {
        self.network.plan().config().frames as u8
    }

    fn key(&self) -> Option<Key> {
        self.key
    }

    fn begin(&mut self, number: Option<u64>, key: Key, packet: &Packet<'_>) {
        self.note(number);
        self.key = Some(key);
        self.writer.clear();
        self.intact = true;
        self.clear();
        self.hold(packet);
    }

    fn add(&mut self, packet: &Packet<'_>) {
        self.hold(packet);
    }

    fn named(&self) -> Option<u64> {
        let Some(key) = self.key else {
            return None;
        };
        named(self.network.plan(), key, self.stamps)
    }

    fn fault(&self, number: u64) -> Option<MuteCause> {
        tally_law();
        let plan = self.network.plan();
        first_fault(
            plan,
            number,
            self.stamps,
            &self.l1,
            &self.blocks,
            &self.past,
        )
    }
}
