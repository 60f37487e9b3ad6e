// A group with marks.
ghost use Rattle.std.specs.Prelude.{◌≡◌};
ghost use Rattle.frame_groups.specs.Tests.{pool_chunks};

use crate::marks::{HeldMarks, Mark};
use bit_slice::OutOfMemory;
use frame_groups::{Key, MuteCause, OpenGroup};
use open_group::PooledGroup;
use plp_config::Plan;
use std::alloc::Global;
use t2mi_packet::Packet;

/// The group under way of one feed of several. Besides what a [`PooledGroup`] holds it knows packet_count of the first
/// L1-current and, as long as the blocks have room, of each block that has the length of its PLP. All its memory is
/// taken in `open`.
#[derive(Drop)]
pub struct MarkedGroup<'p> {
    plan: &'p Plan,
    group: PooledGroup<'p>,
    marks: HeldMarks,
    ghost same: { plan.now ≡ group.network },
    ghost most: { marks.most ≡ pool_chunks group.network },
}

impl<'p> MarkedGroup<'p> {
    ghost use Rattle.std.specs.Prelude.{◌≡◌, ◌++◌, ◌∷◌, [], true, List, Option, Some, None, IfOk};
    ghost use Rattle.frame_groups.specs.Groups.{Group};
    ghost use Rattle.frame_groups.specs.Modulated.{Numbered};
    ghost use Rattle.frame_groups.specs.Grouping.{one_more};
    ghost use Rattle.open_group.specs.Holds.{Holds};
    ghost use Rattle.open_group.specs.Signals.{fits_pool};
    ghost use Rattle.frame_weave.specs.Holds.{HoldsMarks, HoldsMarked, AreMarks};
    ghost use Rattle.frame_weave.specs.Marked.{marked_blocks, first_count};

    /// A group in a network of this plan: none yet. It takes all the memory that a group needs.
    pub fn open(alloc: Global, plan: &'p Plan) -> Result<MarkedGroup<'p>, OutOfMemory>
        ensures holds { IfOk result (λ held. HoldsMarked held [] None) }
        ensures network { IfOk result (λ held. held.group.network ≡ plan.now) }
        ensures intact { IfOk result (λ held. held.group.intact ≡ true) }
    {
        Ok(MarkedGroup {
            plan,
            group: PooledGroup::open(alloc, plan)?,
            marks: HeldMarks::open(alloc, plan)?,
        })
    }

    // Marks what the last packet of the group brought.
    fn mark(&mut self, packet: &Packet<'_>)
        requires { self.old.group.intact ≡ true }
        ensures marks { (past : List Numbered) (h : Group) → Holds self.old.group past (Some (one_more h packet.now))
            → HoldsMarks self.old.group.network self.old.marks h.packets
            → HoldsMarks self.old.group.network self.new.marks (h.packets ++ packet.now ∷ []) }
        ensures group { self.new.group ≡ self.old.group }
    {
        let _fits = self.group.fits();
        self.marks.add(self.plan, self.group.blocks(), packet);
    }

    /// The group without its marks.
    pub fn group(&self) -> &PooledGroup<'p>
        ensures { result.now ≡ self.now.group }
    {
        &self.group
    }

    /// The marks of its blocks, in the order in which they came.
    pub fn marks(&self) -> &[Mark]
        ensures { (past : List Numbered) (h : Group) → HoldsMarked self.now past (Some h)
            → fits_pool self.now.group.network h.packets ≡ true
            → AreMarks self.now.group.network h.packets result.now (marked_blocks self.now.group.network h.packets) }
    {
        self.marks.marks()
    }

    /// packet_count of its first L1-current.
    pub fn origin(&self) -> Option<u8>
        ensures { (past : List Numbered) (h : Group) → HoldsMarked self.now past (Some h)
            → result ≡ first_count h.packets }
    {
        self.marks.origin()
    }
}

impl<'p> OpenGroup for MarkedGroup<'p> {
    ghost use Rattle.frame_groups.specs.Tests.{rules};
    ghost use Rattle.open_group.specs.FrameBytes.{is_frame};
    ghost use Rattle.frame_weave.specs.Holds.{HoldsMarked};

    ghost holds = { HoldsMarked };

    ghost key_now = { λ g. g.group.key };

    ghost rules = { λ g. rules g.group.network };

    ghost is_intact = { λ g. g.group.intact };

    ghost is_frame = { λ g. is_frame g.group };

    fn frames(&self) -> u8 {
        self.group.frames()
    }

    fn key(&self) -> Option<Key> {
        self.group.key()
    }

    fn begin(&mut self, number: Option<u64>, key: Key, packet: &Packet<'_>) {
        self.marks.clear();
        self.group.begin(number, key, packet);
        self.mark(packet);
    }

    fn add(&mut self, packet: &Packet<'_>) {
        self.group.add(packet);
        self.mark(packet);
    }

    fn named(&self) -> Option<u64> {
        self.group.named()
    }

    fn fault(&self, number: u64) -> Option<MuteCause> {
        self.group.fault(number)
    }
}
