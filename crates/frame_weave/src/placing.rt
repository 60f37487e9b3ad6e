// The blocks of a group are placed in its frame.
ghost use Rattle.std.specs.Prelude.{◌≡◌, ◌<◌, ◌≤◌, ◌+◌, ◌++◌, ◌^◌, ℕ, List, [], true, length, slice_index_or};
ghost use Rattle.linked_pool.specs.Pool.{list_at};
ghost use Rattle.plp_config.specs.declared.plp.TheConstants.{MOST_BLOCK_BYTES};
ghost use Rattle.plp_config.specs.declared.config.Config.{Config};
ghost use Rattle.t2mi_packet.specs.declared.packet.Packet.{Packet};
ghost use Rattle.open_group.specs.RecordBytes.{AreShort};
ghost use Rattle.open_group.specs.Shown.{AreBlocks};
ghost use Rattle.frame_weave.specs.Holds.{Marks, AreMarks};
ghost use Rattle.frame_weave.specs.Marked.{MarkedBlock};
ghost use Rattle.frame_weave.specs.Placed.{Placed, next_place as next_place_by, placed_from, one_placed, first_behind};
ghost use Rattle.frame_weave.specs.Places.{has_room};
ghost use Rattle.frame_weave.specs.Slots.{IsLaid, Puts, Fills};

use crate::layout::Layout;
use crate::marks::Mark;
use crate::slots::Slots;
use frame_writer::PoolWalk;
use linked_pool::{BlockRef, Pool};
use plp_config::MOST_BLOCK_BYTES;

// The least place from one on that packet_count tells.
fn next_place(origin: u64, count: u8, first: u64) -> u64
    requires origin { origin ≤ 2 ^ 8 }
    requires first { first ≤ 2 ^ 32 }
    ensures value { result ≡ next_place_by origin count first }
    ensures most { result < first + 256 }
{
    first + (u64::from(count) + 255 * (origin + first)) % 256
}

// Puts a block of a pool at a place, if there is none yet.
fn put_block(slots: &mut Slots, place: u32, block: &BlockRef<'_>)
    requires { length block.now ≤ MOST_BLOCK_BYTES }
    ensures puts { Puts slots.old slots.new place block.now }
    ensures places { slots.new.places ≡ slots.old.places }
{
    let mut bytes = [0; MOST_BLOCK_BYTES as usize];
    let copy = &mut bytes[..block.len()];
    block.copy_to(copy);
    slots.put(place, copy);
}

// Puts the block of a list, by its place there, at a place of the frame.
fn put_from(slots: &mut Slots, place: u32, walk: &mut PoolWalk<'_>, list: u32, index: u32)
    requires list { list < length walk.old.lists }
    requires short { AreShort walk.old.lists }
    ensures puts { index < length (list_at walk.old list)
        → Puts slots.old slots.new place (slice_index_or (list_at walk.old list) index []) }
    ensures walk { walk.new ≡ walk.old }
    ensures places { slots.new.places ≡ slots.old.places }
{
    let Some(block) = walk.block(list, index) else {
        return;
    };
    put_block(slots, place, &block);
}

// Places the block of a mark, and tells from where on those behind it stand.
fn place_block(
    layout: &Layout,
    slots: &mut Slots,
    walk: &mut PoolWalk<'_>,
    origin: u64,
    first: u64,
    mark: Mark,
) -> u64
    requires origin { origin ≤ 2 ^ 8 }
    requires first { first ≤ 2 ^ 32 }
    requires lists { length layout.now.starts.items ≡ length walk.old.lists + 1 }
    requires short { AreShort walk.old.lists }
    ensures stands { (c : Config) (counts : List ℕ) (packets : List Packet) (b : MarkedBlock) (placed : List Placed)
        → IsLaid c counts layout.now → has_room c counts ≡ true → Marks c packets mark b
        → AreBlocks c packets walk.old.lists
        → Fills c counts slots.old placed
        → Fills c counts slots.new (placed ++ one_placed counts origin first b)
        × (result ≡ first_behind counts origin first b) }
    ensures most { result ≤ 2 ^ 32 }
    ensures walk { walk.new ≡ walk.old }
    ensures places { slots.new.places ≡ slots.old.places }
{
    let plp = usize::from(mark.plp);
    let least = first.max(u64::from(layout.start(plp)));
    let place = next_place(origin, mark.count, least);
    if place >= u64::from(layout.start(plp + 1)) {
        return first;
    }
    put_from(slots, place as u32, walk, u32::from(mark.plp), mark.place);
    place + 1
}

/// Places the blocks of a group: those of its pool, in the order of their marks.
pub fn place_blocks(layout: &Layout, slots: &mut Slots, pool: &Pool, origin: u64, marks: &[Mark])
    requires origin { origin ≤ 2 ^ 8 }
    requires lists { length layout.now.starts.items ≡ length pool.now.lists + 1 }
    requires short { AreShort pool.now.lists }
    ensures places { slots.new.places ≡ slots.old.places }
    ensures placed { (c : Config) (counts : List ℕ) (packets : List Packet) (blocks : List MarkedBlock)
        (placed : List Placed)
        → IsLaid c counts layout.now → has_room c counts ≡ true → AreMarks c packets marks.now blocks
        → AreBlocks c packets pool.now.lists → Fills c counts slots.old placed
        → Fills c counts slots.new (placed ++ placed_from counts origin 0 blocks) }
{
    let mut walk = PoolWalk::new(pool);
    let mut first = 0;
    for i in 0..marks.len() {
        first = place_block(layout, slots, &mut walk, origin, first, marks[i]);
    }
}
