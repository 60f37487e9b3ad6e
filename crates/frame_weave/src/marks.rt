// What is marked of the packets of a group.
ghost use Rattle.std.specs.Prelude.{◌≡◌, ◌≤◌, vec_len, vec_capacity};

use bit_slice::{BitSlice, OutOfMemory};
use linked_pool::{Pool, group_chunks};
use plp_config::Plan;
use std::alloc::Global;
use t2mi_packet::{Body, Packet};

/// Of a block that has the length of its PLP: the place of the PLP, packet_count of the packet that brought it, and its
/// place among the blocks of the PLP.
#[derive(Clone, Copy, Debug, PartialEq, Eq)]
pub struct Mark {
    pub plp: u8,
    pub count: u8,
    pub place: u32,
}

/// What is marked of the packets of a group. Once the blocks have no room, no more are marked.
#[derive(Drop)]
pub struct HeldMarks {
    // Those of the blocks, as they came; and how many there may be.
    marks: Vec<Mark>,
    most: usize,
    // packet_count of the first L1-current.
    origin: Option<u8>,
    ghost room: { vec_len marks ≤ most },
    ghost memory: { most ≤ vec_capacity marks },
}

impl HeldMarks {
    ghost use Rattle.std.specs.Prelude.{◌≡◌, ◌≤◌, ◌<◌, ◌∷◌, ◌++◌, ◌*◌, [], ℕ, Bool, List, Option, Some, None, true};
    ghost use Rattle.std.specs.Prelude.{IfOk, length, vec_len, if◌then◌else◌, nat_lt};
    ghost use Rattle.std.specs.Option.{option_or};
    ghost use Rattle.frame_groups.specs.Tests.{pool_chunks};
    ghost use Rattle.open_group.specs.Signals.{fits_pool};
    ghost use Rattle.open_group.specs.Shown.{AreBlocks};
    ghost use Rattle.t2mi_packet.specs.declared.packet.Packet.{Packet};
    ghost use Rattle.t2mi_packet.specs.declared.packet.Body.TheVariants.{Block};
    ghost use Rattle.frame_weave.specs.Holds.{HoldsMarks};
    ghost use Rattle.frame_weave.specs.declared.marks.Mark.{Mark};

    /// Takes the memory for a plan. Nothing is marked yet.
    pub fn open(alloc: Global, plan: &Plan) -> Result<HeldMarks, OutOfMemory>
        ensures most { IfOk result (λ held. held.most ≡ pool_chunks plan.now) }
    {
        let most = group_chunks(plan) as usize;
        Ok(HeldMarks {
            marks: Vec::with_capacity(alloc, most)?,
            most,
            origin: None,
        })
    }

    /// Nothing is marked.
    pub fn clear(&mut self)
        ensures marks { self.new.marks.items ≡ [] }
        ensures origin { self.new.origin ≡ None }
        ensures most { self.new.most ≡ self.old.most }
    {
        self.marks.clear();
        self.origin = None;
    }

    // One mark more, if there is room for it.
    fn push(&mut self, mark: Mark)
        ensures pushed { self.new.marks.items
            ≡ (if nat_lt (length self.old.marks.items) self.old.most then self.old.marks.items ++ mark ∷ []
            else self.old.marks.items) }
        ensures origin { self.new.origin ≡ self.old.origin }
        ensures most { self.new.most ≡ self.old.most }
    {
        if self.marks.len() < self.most {
            self.marks.push(mark).unwrap();
        }
    }

    fn add_block(&mut self, plan: &Plan, pool: &Pool, count: u8, id: u8, bits: &BitSlice<'_>)
        requires most { self.old.most ≡ pool_chunks plan.now }
        requires lists { length pool.now.lists ≡ length plan.now.plps }
        ensures marks { (packets : List Packet) (p : Packet) (frame_idx : ℕ) (first : Bool)
            → p.body ≡ Block frame_idx id first bits.now → p.packet_count ≡ count
            → (fits_pool plan.now (packets ++ p ∷ []) ≡ true → AreBlocks plan.now (packets ++ p ∷ []) pool.now.lists)
            → HoldsMarks plan.now self.old packets → HoldsMarks plan.now self.new (packets ++ p ∷ []) }
        ensures most { self.new.most ≡ self.old.most }
    {
        let Some(plp) = plan.place_of(id) else {
            return;
        };
        if bits.len() != 8 * plan.block_bytes(plp) as usize {
            return;
        }
        let mark = Mark {
            plp: plp as u8,
            count,
            place: pool.count(plp as u32).saturating_sub(1),
        };
        self.push(mark);
    }

    fn add_l1(&mut self, count: u8)
        ensures { self.new ≡ record self.old { origin = option_or self.old.origin (Some count) } }
    {
        if self.origin.is_none() {
            self.origin = Some(count);
        }
    }

    /// Marks what a packet brings, once its block is in the pool.
    pub fn add(&mut self, plan: &Plan, pool: &Pool, packet: &Packet<'_>)
        requires most { self.old.most ≡ pool_chunks plan.now }
        requires lists { length pool.now.lists ≡ length plan.now.plps }
        ensures marks { (packets : List Packet)
            → (fits_pool plan.now (packets ++ packet.now ∷ []) ≡ true
            → AreBlocks plan.now (packets ++ packet.now ∷ []) pool.now.lists)
            → HoldsMarks plan.now self.old packets → HoldsMarks plan.now self.new (packets ++ packet.now ∷ []) }
        ensures most { self.new.most ≡ self.old.most }
    {
        match &packet.body {
            Body::Block { plp_id, bits, .. } => {
                self.add_block(plan, pool, packet.packet_count, *plp_id, bits)
            }
            Body::L1Current { .. } => self.add_l1(packet.packet_count),
            Body::Timestamp(_) => {}
            Body::Other { .. } => {}
        }
    }

    /// The marks, in the order in which the blocks came.
    pub fn marks(&self) -> &[Mark]
        ensures { result.now ≡ self.now.marks.items }
    {
        self.marks.as_slice()
    }

    /// packet_count of the first L1-current.
    pub fn origin(&self) -> Option<u8>
        ensures { result ≡ self.now.origin }
    {
        self.origin
    }
}
