// The blocks of a group.
ghost use Rattle.std.specs.Prelude.{◌≡◌, ◌+◌, ◌<◌, ◌≤◌, ℕ, [], length};
ghost use Rattle.linked_pool.specs.Pool.{list_at};
ghost use Rattle.open_group.specs.RecordBytes.{AreShort};
ghost use Rattle.plp_config.specs.declared.plp.TheConstants.{MOST_BLOCK_BYTES};

use crate::plps::block_chunks;
use crate::writer::Writer;
use crate::writer_laws::short_law;
use bit_slice::{BitSlice, OutOfMemory};
use linked_pool::{BlockRef, Pool, group_chunks};
use plp_config::Plan;
use scheduler::Shape;
use std::alloc::Global;
use t2mi_packet::{Body, Packet};

/// What is held of the blocks of a group. Its numbers stand still at the greatest that they can be.
#[derive(Drop)]
pub struct HeldBlocks {
    // Of each PLP, its blocks that have its length.
    pub(crate) pool: Pool,
    // Of each PLP, how many blocks came, and how many that have its length.
    counts: Vec<u64>,
    rights: Vec<u64>,
    // Its chunks, and those that these blocks need. Once these are more, no block is kept.
    chunks: u32,
    need: u64,
    // Each block was one of a PLP, with its length.
    known: bool,
    ghost whole: { pool.opened ≡ chunks },
    ghost room: { need ≤ chunks → chunks ≤ pool.spare + need },
    ghost short: { AreShort pool.lists },
}

// Removes the blocks of all lists.
fn clear_lists(pool: &mut Pool, lists: u32)
    requires { length pool.old.lists ≡ lists }
    ensures lists { length pool.new.lists ≡ lists }
    ensures none { (list : ℕ) → list < lists → list_at pool.new list ≡ [] }
    ensures opened { pool.new.opened ≡ pool.old.opened }
{
    for list in 0..lists {
        pool.clear(list);
    }
}

fn clear_pool(pool: &mut Pool, lists: u32)
    requires { length pool.old.lists ≡ lists }
    ensures lists { length pool.new.lists ≡ lists }
    ensures none { (list : ℕ) → list < lists → list_at pool.new list ≡ [] }
    ensures opened { pool.new.opened ≡ pool.old.opened }
    ensures spare { pool.new.spare ≡ pool.new.opened }
    ensures short { AreShort pool.new.lists }
{
    clear_lists(pool, lists);
    pool.is_whole_law();
}

impl HeldBlocks {
    ghost use Rattle.std.specs.Prelude.{◌≡◌, ◌↔◌, ◌<◌, ◌≤◌, ◌+◌, ◌*◌, ◌%◌, ◌^◌, ◌++◌, ◌∷◌, [], true, false, Some};
    ghost use Rattle.std.specs.Prelude.{length, drop, replicate, vec_len, slice_set, slice_index, IfOk, List, Bool, ℕ};
    ghost use Rattle.std.specs.Prelude.{◌↔◌, ◌⊎◌, take, drop};
    ghost use Rattle.linked_pool.specs.Pool.{list_at, chunks_for, used_chunks, appended};
    ghost use Rattle.plp_config.specs.Capacity.{block_bytes};
    ghost use Rattle.t2mi_packet.specs.declared.packet.Packet.{Packet};
    ghost use Rattle.t2mi_packet.specs.declared.packet.Body.TheVariants.{Block};
    ghost use Rattle.frame_groups.specs.Tally.{Tally, tally_with};
    ghost use Rattle.frame_groups.specs.Tests.{pool_chunks, capped};
    ghost use Rattle.open_group.specs.HoldsBlocks.{IsOpenFor, HoldsCounts, HoldsLists, held_of};
    ghost use Rattle.open_group.specs.Sent.{held_bytes};
    ghost use Rattle.open_group.specs.Writes.{bytes_left, IsLast, IsReady, is_done};

    /// Takes the memory for the PLPs of a plan. Nothing is held yet.
    pub fn open(alloc: Global, plan: &Plan) -> Result<HeldBlocks, OutOfMemory>
        ensures open { IfOk result (λ held. IsOpenFor held (length plan.now.plps)) }
        ensures chunks { IfOk result (λ held. held.chunks ≡ pool_chunks plan.now) }
    {
        short_law();
        let plps = plan.config().plps.len();
        let chunks = group_chunks(plan);
        Ok(HeldBlocks {
            pool: Pool::open(alloc, chunks, plps as u32)?,
            counts: vec![in alloc; 0; plps]?,
            rights: vec![in alloc; 0; plps]?,
            chunks,
            need: 0,
            known: true,
        })
    }

    // Counts a block of a PLP.
    fn count(&mut self, plp: usize)
        requires { plp < vec_len self.old.counts }
        ensures held { held_of self.new ≡ record (held_of self.old) {
          counts = slice_set self.old.counts.items plp (capped (slice_index self.old.counts.items plp + 1));
        } }
    {
        self.counts[plp] = self.counts[plp].saturating_add(1);
    }

    // And one that has its length.
    fn count_right(&mut self, plp: usize)
        requires { plp < vec_len self.old.rights }
        ensures held { held_of self.new ≡ record (held_of self.old) {
          rights = slice_set self.old.rights.items plp (capped (slice_index self.old.rights.items plp + 1));
        } }
    {
        self.rights[plp] = self.rights[plp].saturating_add(1);
    }

    // Keeps a block of a PLP, if there is room for all that came so far.
    fn keep(&mut self, plp: u32, chunks: u32, bits: &BitSlice<'_>)
        requires list { plp < length self.old.pool.lists }
        requires bytes { length bits.now % 8 ≡ 0 }
        requires short { length (held_bytes bits.now) ≤ MOST_BLOCK_BYTES }
        requires chunks { chunks ≡ chunks_for (length (held_bytes bits.now)) }
        ensures kept { self.new.need ≤ self.old.chunks → self.new.pool ≡ appended self.old.pool plp
            (held_bytes bits.now) }
        ensures lists { length self.new.pool.lists ≡ length self.old.pool.lists }
        ensures held { held_of self.new ≡ record (held_of self.old) {
          pool = self.new.pool;
          need = capped (self.old.need + chunks);
        } }
    {
        short_law();
        self.need = self.need.saturating_add(u64::from(chunks));
        if self.need > u64::from(self.chunks) {
            return;
        }
        self.pool.append_bits(plp, bits).unwrap();
    }

    fn add_block(&mut self, plan: &Plan, id: u8, bits: &BitSlice<'_>)
        requires open { IsOpenFor self.old (length plan.now.plps) }
        ensures counts { (t : Tally) (p : Packet) (frame_idx : ℕ) (first : Bool)
            → p.body ≡ Block frame_idx id first bits.now
            → HoldsCounts plan.now self.old t → HoldsCounts plan.now self.new (tally_with plan.now t p) }
        ensures lists { (packets : List Packet) (p : Packet) (frame_idx : ℕ) (first : Bool)
            → p.body ≡ Block frame_idx id first bits.now → HoldsLists plan.now self.old packets
            → HoldsLists plan.now self.new (packets ++ p ∷ []) }
        ensures open { IsOpenFor self.new (length plan.now.plps) }
        ensures all { self.new.chunks ≡ self.old.chunks }
    {
        let Some(place) = plan.place_of(id) else {
            self.known = false;
            return;
        };
        self.count(place);
        let len = plan.block_bytes(place) as usize;
        if bits.len() != 8 * len {
            self.known = false;
            return;
        }
        self.count_right(place);
        self.keep(place as u32, block_chunks(plan, place), bits);
    }

    /// Adds the block of a packet, if it carries one.
    pub fn add(&mut self, plan: &Plan, packet: &Packet<'_>)
        requires open { IsOpenFor self.old (length plan.now.plps) }
        ensures counts { (t : Tally) → HoldsCounts plan.now self.old t
            → HoldsCounts plan.now self.new (tally_with plan.now t packet.now) }
        ensures lists { (packets : List Packet) → HoldsLists plan.now self.old packets
            → HoldsLists plan.now self.new (packets ++ packet.now ∷ []) }
        ensures open { IsOpenFor self.new (length plan.now.plps) }
        ensures all { self.new.chunks ≡ self.old.chunks }
    {
        match &packet.body {
            Body::Block { plp_id, bits, .. } => self.add_block(plan, *plp_id, bits),
            Body::L1Current { .. } => {}
            Body::Timestamp(_) => {}
            Body::Other { .. } => {}
        }
    }

    /// Holds nothing.
    pub fn clear(&mut self, plan: &Plan)
        requires open { IsOpenFor self.old (length plan.now.plps) }
        ensures none { (list : ℕ) → list < length plan.now.plps → list_at self.new.pool list ≡ [] }
        ensures open { IsOpenFor self.new (length plan.now.plps) }
        ensures held { held_of self.new ≡ record {
          pool = self.new.pool;
          counts = replicate (length self.old.counts.items) 0;
          rights = replicate (length self.old.rights.items) 0;
          chunks = self.old.chunks;
          need = 0;
          known = true;
        } }
    {
        clear_pool(&mut self.pool, plan.config().plps.len() as u32);
        self.counts.fill(0);
        self.rights.fill(0);
        self.need = 0;
        self.known = true;
    }

    /// How many chunks there are, and how many the blocks need that have the length of their PLP.
    pub fn chunks(&self) -> (u64, u64)
        ensures chunks { result.0 ≡ self.now.chunks }
        ensures small { result.0 < 2 ^ 32 }
        ensures need { result.1 ≡ self.now.need }
    {
        (u64::from(self.chunks), self.need)
    }

    /// Tells that its blocks fill no more chunks than there are.
    pub fn fits_chunks(&self)
        ensures { used_chunks self.now.pool.lists ≤ self.now.chunks }
    {
        self.pool.is_whole_law();
    }

    /// The blocks that have the length of their PLP, a list for each PLP.
    pub fn pool(&self) -> &Pool
        ensures value { result.now ≡ self.now.pool }
        ensures short { AreShort result.now.lists }
    {
        &self.pool
    }

    /// Whether each block was one of a PLP, with its length.
    pub fn is_known(&self) -> bool
        ensures { result ≡ self.now.known }
    {
        self.known
    }

    /// How many blocks of a PLP came.
    pub fn count_of(&self, plp: usize) -> u64
        requires { plp < vec_len self.now.counts }
        ensures { result ≡ slice_index self.now.counts.items plp }
    {
        self.counts[plp]
    }

    /// And how many that have its length.
    pub fn right_of(&self, plp: usize) -> u64
        requires { plp < vec_len self.now.rights }
        ensures { result ≡ slice_index self.now.rights.items plp }
    {
        self.rights[plp]
    }

    /// Gives the next bytes of a record, whose blocks are taken from the pool.
    pub fn give(&mut self, plan: &Plan, shape: &Shape, writer: &mut Writer, out: &mut [u8]) -> usize
        requires open { IsOpenFor self.old (length plan.now.plps) }
        requires ready { IsReady writer.old plan.now shape.now self.old.pool.lists }
        ensures most { result ≤ length out.old }
        ensures bytes { bytes_left writer.old plan.now shape.now self.old.pool.lists
            ≡ take result out.new ++ bytes_left writer.new plan.now shape.now self.new.pool.lists }
        ensures stays { (length out.new ≡ length out.old) × (drop result out.new ≡ drop result out.old) }
        ensures none { (result ≡ 0) ↔ ((length out.old ≡ 0) ⊎ (is_done writer.old ≡ true)) }
        ensures last { IsLast writer.old → IsLast writer.new × (self.new.pool ≡ self.old.pool) }
        ensures ready { IsReady writer.new plan.now shape.now self.new.pool.lists }
        ensures open { IsOpenFor self.new (length plan.now.plps) }
        ensures held { held_of self.new ≡ record (held_of self.old) { pool = self.new.pool } }
    {
        writer.take(plan, shape, &mut self.pool, out)
    }
}
