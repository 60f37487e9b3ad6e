// Taking the blocks of an interleaving frame.
ghost use Rattle.std.specs.Prelude.{◌≡◌, ◌+◌, ◌*◌, ◌^◌, ◌<◌, ◌≤◌, true, false, length, take, drop};
ghost use Rattle.terms.specs.Bits.{bits_of};
ghost use Rattle.bb_frame.specs.Scrambled.{scrambled};
ghost use Rattle.plp_config.specs.declared.moment.TheConstants.{MOST_FRAMES};
ghost use Rattle.plp_receiver.specs.SlotsStandFor.{frame_of, is_within, due_of, ends_epoch, slots_status};
ghost use Rattle.plp_receiver.specs.Holds.{room_of};
ghost use Rattle.plp_receiver.specs.Taking.{TakesBlock, TakesBlocks, TakesEpoch};

use crate::held::HeldBlocks;
use crate::slots::PacketSlots;
use crate::taking::taken_block;
use bb_frame::scramble;

// The block at a place.
fn block_in(bytes: &[u8], at: usize, len: usize) -> &[u8]
    requires { at + len ≤ length bytes.now }
    ensures value { result.now ≡ take len (drop at bytes.now) }
    ensures long { length result.now ≡ len }
{
    &bytes[at..at + len]
}

// Scrambles the block at a place once more, so that it is scrambled no more.
fn unscramble(bytes: &mut [u8], at: usize, len: usize)
    requires { at + len ≤ length bytes.old }
    ensures bits { bits_of (take len (drop at bytes.new)) ≡ scrambled (bits_of (take len (drop at bytes.old))) }
    ensures behind { drop (at + len) bytes.new ≡ drop (at + len) bytes.old }
    ensures len { length bytes.new ≡ length bytes.old }
{
    scramble(&mut bytes[at..at + len]);
}

// Takes the block at a place, or a gap in its place.
fn take_block(
    slots: &mut PacketSlots,
    bytes: &mut [u8],
    at: usize,
    len: usize,
    stands: bool,
    deletes: bool,
)
    requires small { frame_of slots.old < MOST_FRAMES }
    requires within { is_within slots.old ≡ true }
    requires inside { at + len ≤ length bytes.old }
    requires size { (10 ≤ len) × (len < 2 ^ 16) }
    ensures takes { TakesBlock deletes stands (take len (drop at bytes.old)) slots.old slots.new }
    ensures status { slots_status slots.new ≡ slots_status slots.old }
    ensures behind { drop (at + len) bytes.new ≡ drop (at + len) bytes.old }
    ensures len { length bytes.new ≡ length bytes.old }
{
    if !stands {
        slots.skip();
        return;
    }
    unscramble(bytes, at, len);
    match taken_block(block_in(bytes, at, len), deletes) {
        Some(block) => slots.take(&block),
        None => slots.skip(),
    }
}

/// Takes blocks that stand one behind the other, one for each test of whether its cells stand, and a gap in place of
/// each that is not taken.
pub fn take_blocks(
    slots: &mut PacketSlots,
    bytes: &mut [u8],
    len: usize,
    stands: &[bool],
    deletes: bool,
)
    requires small { frame_of slots.old < MOST_FRAMES }
    requires within { is_within slots.old ≡ true }
    requires few { length stands.now < 2 ^ 16 }
    requires size { (10 ≤ len) × (len < 2 ^ 16) }
    requires there { length stands.now * len ≤ length bytes.old }
    ensures takes { TakesBlocks deletes stands.now len bytes.old slots.old slots.new }
    ensures status { slots_status slots.new ≡ slots_status slots.old }
    ensures len { length bytes.new ≡ length bytes.old }
{
    for k in 0..stands.len() {
        take_block(slots, bytes, k * len, len, stands[k], deletes);
    }
}

/// Takes the epoch that ends with the next frame, whose blocks are held.
pub fn take_epoch(slots: &mut PacketSlots, held: &mut HeldBlocks, deletes: bool)
    requires small { frame_of slots.old < MOST_FRAMES }
    requires outside { is_within slots.old ≡ false }
    requires given_out { due_of slots.old ≡ 0 }
    requires last { ends_epoch slots.old ≡ true }
    ensures takes { TakesEpoch deletes held.old slots.old slots.new }
    ensures status { slots_status slots.new ≡ record (slots_status slots.old) {
      frame = frame_of slots.old + 1;
      within = false;
      due = due_of slots.new;
    } }
    ensures room { room_of held.new ≡ room_of held.old }
{
    slots.begin_frame();
    held.give(slots, deletes);
    slots.end_frame();
}
