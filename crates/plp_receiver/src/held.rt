// The blocks of an interleaving frame of a PLP, from its first record to its last one.
ghost use Rattle.std.specs.Prelude.{◌≡◌, ◌*◌, ◌^◌, ◌<◌, ◌≤◌, ℕ, true, false, length, vec_len, take, slice_index_or};
ghost use Rattle.plp_config.specs.declared.moment.TheConstants.{MOST_FRAMES};
ghost use Rattle.plp_receiver.specs.SlotsStandFor.{frame_of, is_within, slots_status};

use crate::blocks::take_blocks;
use crate::copying::copy_blocks;
use crate::slots::PacketSlots;
use crate::standing::see_standing;
use bit_slice::OutOfMemory;
use plp_config::Plan;
use scheduler::Shape;
use site_frame::{BlocksIter, Cells};
use std::alloc::Global;

/// The blocks of an interleaving frame, as they are sent, and what is known of them so far.
#[derive(Drop)]
pub struct HeldBlocks {
    // One block behind the other, and the bytes of each.
    bytes: Vec<u8>,
    len: usize,
    // Of each block, whether all its cells so far stand at their addresses.
    stands: Vec<bool>,
    // How many they are, as the first record told.
    count: usize,
    // Whether all records so far were readable, and told this number.
    there: bool,
    ghost room: { vec_len bytes ≡ vec_len stands * len },
    ghost few: { count ≤ vec_len stands },
    ghost most: { vec_len stands < 2 ^ 16 },
    ghost size: { (10 ≤ len) × (len < 2 ^ 16) },
}

impl HeldBlocks {
    ghost use Rattle.std.specs.Prelude.{◌&&◌, IfOk, ◌==◌, slice_index, List};
    ghost use Rattle.site_frame.specs.Record.{Block};
    ghost use Rattle.cell_map.specs.CellMap.{Passes};
    ghost use Rattle.plp_receiver.specs.Parts.{all_stand, part_with};
    ghost use Rattle.plp_receiver.specs.Taken.{bytes_at};
    ghost use Rattle.plp_receiver.specs.Holds.{block_at, room_of, blocks_of};
    ghost use Rattle.plp_receiver.specs.Taking.{HaveLength, TakesBlocks};

    /// Takes memory for so many blocks of this length.
    ///
    /// # Errors
    /// There is no memory for it. No later call wants any.
    pub fn open(alloc: Global, count: usize, len: usize) -> Result<HeldBlocks, OutOfMemory>
        requires few { count < 2 ^ 16 }
        requires size { (10 ≤ len) × (len < 2 ^ 16) }
        ensures none { IfOk result (λ h. h.there ≡ false) }
        ensures room { IfOk result (λ h. room_of h ≡ record { blocks = count; len = len }) }
    {
        Ok(HeldBlocks {
            bytes: vec![in alloc; 0; count * len]?,
            len,
            stands: vec![in alloc; false; count]?,
            count: 0,
            there: false,
        })
    }

    /// A record is not there, or does not go on with the others.
    pub fn lose(&mut self)
        ensures lost { self.new.there ≡ false }
        ensures room { room_of self.new ≡ room_of self.old }
    {
        self.there = false;
    }

    /// Begins with the next blocks, so many.
    pub fn begin(&mut self, rest: &mut BlocksIter<'_>, count: usize)
        requires few { count ≤ vec_len self.old.stands }
        requires there { HaveLength self.old.len count rest.old }
        ensures there { self.new.there ≡ true }
        ensures count { self.new.count ≡ count }
        ensures bytes { (k : ℕ) → k < count → block_at self.new.len self.new.bytes.items k ≡ bytes_at rest.old k }
        ensures stand { (k : ℕ) → k < count → slice_index_or self.new.stands.items k false ≡ true }
        ensures room { room_of self.new ≡ room_of self.old }
    {
        copy_blocks(&mut self.bytes, self.len, rest, count);
        self.stands.fill(true);
        self.count = count;
        self.there = true;
    }

    /// Whether a record that tells so many blocks goes on with the others.
    pub fn goes_on(&self, count: usize) -> bool
        ensures { result ≡ (self.now.there && (self.now.count == count)) }
    {
        self.there && self.count == count
    }

    /// Sees which cells of the blocks stand in a record of a frame of this shape.
    pub fn see_cells(
        &mut self,
        plan: &Plan,
        shape: &Shape,
        plp: usize,
        number: u64,
        cells: &Cells<'_>,
    )
        requires plps { length shape.now.counts ≡ length plan.now.plps }
        requires passes { Passes plan.now shape.now }
        requires all { length cells.now ≡ plan.now.cells }
        requires inside { plp < length plan.now.plps }
        requires count { self.old.count ≡ slice_index shape.now.counts plp }
        ensures each { (blocks : List Block) (k : ℕ) → k < self.old.count → slice_index_or self.new.stands.items k false
            ≡ (slice_index_or self.old.stands.items k false
            && all_stand plan.now plp (part_with number blocks shape.now cells.now) k) }
        ensures blocks { blocks_of self.new ≡ blocks_of self.old }
    {
        if self.count > 0 {
            see_standing(plan, shape, plp, number, cells, &mut self.stands);
        }
    }

    /// Whether all records were readable, and told one number of blocks.
    pub fn is_there(&self) -> bool
        ensures { result ≡ self.now.there }
    {
        self.there
    }

    /// Gives the blocks to the slots, in order. They are not held any more.
    pub fn give(&mut self, slots: &mut PacketSlots, deletes: bool)
        requires small { frame_of slots.old < MOST_FRAMES }
        requires within { is_within slots.old ≡ true }
        ensures takes { TakesBlocks deletes (take self.old.count self.old.stands.items) self.old.len
            self.old.bytes.items
            slots.old slots.new }
        ensures status { slots_status slots.new ≡ slots_status slots.old }
        ensures room { room_of self.new ≡ room_of self.old }
    {
        take_blocks(
            slots,
            &mut self.bytes,
            self.len,
            &self.stands[..self.count],
            deletes,
        );
    }
}
