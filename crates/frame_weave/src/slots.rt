// The blocks of a frame, at their places.
ghost use Rattle.std.specs.Prelude.{◌≡◌, ◌<◌, ◌≤◌, ℕ, [], bytes_eq, length};
ghost use Rattle.linked_pool.specs.Pool.{list_at};
ghost use Rattle.plp_config.specs.declared.plp.TheConstants.{MOST_BLOCK_BYTES};
ghost use Rattle.open_group.specs.RecordBytes.{AreShort};

use bit_slice::OutOfMemory;
use linked_pool::{BlockRef, Pool, group_chunks};
use open_group::short_law;
use plp_config::{MOST_BLOCK_BYTES, Plan};
use std::alloc::Global;

/// The blocks of a frame, at their places: of each place the first one that was placed there. It is told whether the
/// others are the same.
#[derive(Drop)]
pub struct Slots {
    // A list for each place.
    pool: Pool,
    places: u32,
    alike: bool,
    ghost lists: { length pool.lists ≡ places },
    ghost opened: { pool.opened ≡ places },
    ghost short: { AreShort pool.lists },
}

// Whether a block is the same as one that is held.
fn is_same(held: &BlockRef<'_>, block: &[u8]) -> bool
    requires { length block.now ≤ MOST_BLOCK_BYTES }
    ensures { result ≡ bytes_eq held.now block.now }
{
    if held.len() != block.len() {
        return false;
    }
    let mut bytes = [0; MOST_BLOCK_BYTES as usize];
    let own = &mut bytes[..block.len()];
    held.copy_to(own);
    *own == *block
}

// Removes the blocks of all lists.
fn clear_lists(pool: &mut Pool, lists: u32)
    requires { length pool.old.lists ≡ lists }
    ensures lists { length pool.new.lists ≡ lists }
    ensures none { (list : ℕ) → list < lists → list_at pool.new list ≡ [] }
    ensures opened { pool.new.opened ≡ pool.old.opened }
{
    for list in 0..lists {
        pool.clear(list);
    }
}

impl Slots {
    ghost use Rattle.std.specs.Prelude.{◌≡◌, ◌≤◌, ◌<◌, ◌&&◌, ℕ, [], true, length, take, bytes_eq, IfOk, slice_index_or};
    ghost use Rattle.std.specs.Prelude.{nat_lt};
    ghost use Rattle.std.specs.List.{list_all, range_with_len};
    ghost use Rattle.linked_pool.specs.Pool.{list_at, chunks_for, appended};
    ghost use Rattle.frame_groups.specs.Tests.{pool_chunks};
    ghost use Rattle.frame_weave.specs.Slots.{Puts};

    /// Takes the memory for the blocks of a frame of a plan. There is none yet.
    pub fn open(alloc: Global, plan: &Plan) -> Result<Slots, OutOfMemory>
        ensures none { IfOk result (λ slots. (k : ℕ) → list_at slots.pool k ≡ []) }
        ensures alike { IfOk result (λ slots. slots.alike ≡ true) }
        ensures places { IfOk result (λ slots. slots.places ≡ pool_chunks plan.now) }
    {
        short_law();
        let places = group_chunks(plan);
        Ok(Slots {
            pool: Pool::open(alloc, places, places)?,
            places,
            alike: true,
        })
    }

    /// Removes all blocks.
    pub fn clear(&mut self)
        ensures none { (k : ℕ) → list_at self.new.pool k ≡ [] }
        ensures alike { self.new.alike ≡ true }
        ensures places { self.new.places ≡ self.old.places }
    {
        clear_lists(&mut self.pool, self.places);
        self.alike = true;
    }

    // Puts the first block at a place, if it has room.
    fn put_first(&mut self, place: u32, block: &[u8])
        requires place { place < length self.old.pool.lists }
        requires short { length block.now ≤ MOST_BLOCK_BYTES }
        ensures put { chunks_for (length block.now) ≤ self.old.pool.spare
            → self.new.pool ≡ appended self.old.pool place block.now }
        ensures alike { self.new.alike ≡ self.old.alike }
        ensures places { self.new.places ≡ self.old.places }
    {
        short_law();
        let _full = self.pool.append(place, block);
    }

    // Whether a block is the same as the one at a place.
    fn is_at(&self, place: u32, block: &[u8]) -> bool
        requires place { place < length self.now.pool.lists }
        requires short { length block.now ≤ MOST_BLOCK_BYTES }
        ensures { 0 < length (list_at self.now.pool place)
            → result ≡ bytes_eq (slice_index_or (list_at self.now.pool place) 0 []) block.now }
    {
        match self.pool.front(place) {
            Some(held) => is_same(&held, block),
            None => true,
        }
    }

    /// Puts a block at a place, if there is none yet.
    pub fn put(&mut self, place: u32, block: &[u8])
        requires short { length block.now ≤ MOST_BLOCK_BYTES }
        ensures puts { Puts self.old self.new place block.now }
        ensures places { self.new.places ≡ self.old.places }
    {
        self.pool.is_whole_law();
        if place >= self.places {
            return;
        }
        if self.pool.count(place) == 0 {
            self.put_first(place, block);
            return;
        }
        self.alike = self.alike && self.is_at(place, block);
    }

    /// Whether all that was placed at a place that had a block was the same.
    pub fn is_alike(&self) -> bool
        ensures { result ≡ self.now.alike }
    {
        self.alike
    }

    // Whether there is a block at a place.
    fn has_block(&self, place: u32) -> bool
        ensures { result ≡ nat_lt 0 (length (list_at self.now.pool place)) }
    {
        place < self.places && self.pool.count(place) > 0
    }

    /// Whether there is a block at each of so many places.
    pub fn is_full(&self, count: u32) -> bool
        ensures { result ≡ list_all (λ place. nat_lt 0 (length (list_at self.now.pool place)))
            (range_with_len 0 count) }
    {
        for place in 0..count {
            if !self.has_block(place) {
                return false;
            }
        }
        true
    }

    /// Copies the block at a place, and tells how many bytes it has.
    pub fn copy_to(&self, place: u32, out: &mut [u8]) -> usize
        requires { length out.old ≡ MOST_BLOCK_BYTES }
        ensures bytes { take result out.new ≡ slice_index_or (list_at self.now.pool place) 0 [] }
        ensures len { length out.new ≡ length out.old }
        ensures most { result ≤ MOST_BLOCK_BYTES }
    {
        if place >= self.places {
            return 0;
        }
        let Some(block) = self.pool.front(place) else {
            return 0;
        };
        let len = block.len();
        block.copy_to(&mut out[..len]);
        len
    }
}
