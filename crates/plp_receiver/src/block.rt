// Taking the blocks of an epoch.
ghost use Rattle.std.specs.Prelude.{◌≡◌, ◌+◌, ◌-◌, ◌%◌, ◌<◌, ◌≤◌, ◌++◌, ◌==◌, length, min, List, ℕ, Some, Option};
ghost use Rattle.std.specs.Prelude.{if◌then◌else◌};
ghost use Rattle.plp_receiver.specs.declared.slot_rule.SlotRule.{SlotRule};
ghost use Rattle.plp_config.specs.declared.moment.TheConstants.{MOST_FRAMES};
ghost use Rattle.plp_receiver.specs.Strings.{Item, first_mark, block_items};
ghost use Rattle.plp_receiver.specs.declared.mark.Mark.TheVariants.{Next};
ghost use Rattle.plp_receiver.specs.Pieces.{piece_items};
ghost use Rattle.plp_receiver.specs.Assembles.{IsEpoch};
ghost use Rattle.plp_receiver.specs.TakenBlocks.{Both, KeepsTimes, block_of, front_of, IsBegun, IsStart, IsPlace};

use crate::assembler::Assembler;
use crate::mark::Mark;
use crate::window::SlotWindow;
use plp_config::ISCR_TICKS;

/// A block that was taken.
#[derive(Clone, Copy)]
pub struct TakenBlock<'a> {
    /// The place in the data field at which the first user packet begins, in bytes, if one does.
    pub first: Option<usize>,
    /// ISSY, 24 bits.
    pub issy: u32,
    /// The data field.
    pub field: &'a [u8],
}

// Takes a piece of a data field.
fn take_piece(
    assembler: &mut Assembler,
    window: &mut SlotWindow,
    mark: Mark,
    epoch: u64,
    bytes: &[u8],
)
    requires epoch { IsEpoch epoch mark }
    requires some { 1 ≤ length bytes.now }
    ensures times { KeepsTimes window.old window.new }
    ensures rule { assembler.new.rule ≡ assembler.old.rule }
    ensures both { (r : SlotRule) (z : List Item) → Both r z assembler.old window.old
        → Both r (z ++ piece_items mark epoch bytes.now) assembler.new window.new }
{
    let Some(found) = assembler.piece(mark, epoch, bytes) else {
        return;
    };
    if window.counts(&found, epoch) {
        window.put(found.slot, assembler.packet());
    }
}

// What begins at the first place where a user packet begins: an ISSY that begins with 10 tells its ISCR.
fn first_mark(issy: u32) -> Mark
    ensures value { result ≡ first_mark issy }
    ensures epoch { (epoch : ℕ) → epoch < MOST_FRAMES → IsEpoch epoch result }
{
    if u64::from(issy) / ISCR_TICKS == 2 {
        return Mark::Timed((u64::from(issy) % ISCR_TICKS) as u32);
    }
    Mark::Next
}

// The mark of a user packet in a block.
fn mark_of(issy: u32, start: usize, at: usize) -> Mark
    ensures value { result ≡ (if at == start then first_mark issy else Next) }
    ensures epoch { (epoch : ℕ) → epoch < MOST_FRAMES → IsEpoch epoch result }
{
    if at == start {
        return first_mark(issy);
    }
    Mark::Next
}

// Takes the user packet that begins at a place of a data field, or what stands there of it.
fn take_up(
    assembler: &mut Assembler,
    window: &mut SlotWindow,
    block: &TakenBlock<'_>,
    start: usize,
    at: usize,
    epoch: u64,
) -> usize
    requires epoch { epoch < MOST_FRAMES }
    requires inside { at < length block.now.field.now }
    requires first { block.now.first ≡ Some start }
    requires begins { IsBegun start at assembler.old.rule.up_len }
    ensures next { result ≡ min (at + assembler.old.rule.up_len) (length block.now.field.now) }
    ensures times { KeepsTimes window.old window.new }
    ensures rule { assembler.new.rule ≡ assembler.old.rule }
    ensures both { (r : SlotRule) (z : List Item) → Both r (z
        ++ front_of r.up_len epoch (block_of block.now) at) assembler.old window.old
        → Both r (z ++ front_of r.up_len epoch (block_of block.now) result) assembler.new window.new }
{
    let end = (at + assembler.up_len()).min(block.field.len());
    take_piece(
        assembler,
        window,
        mark_of(block.issy, start, at),
        epoch,
        &block.field[at..end],
    );
    end
}

// Takes the bytes before the first user packet that begins in a block.
fn take_front(
    assembler: &mut Assembler,
    window: &mut SlotWindow,
    block: &TakenBlock<'_>,
    start: usize,
    epoch: u64,
)
    requires epoch { epoch < MOST_FRAMES }
    requires start { IsStart block.now.first (length block.now.field.now) start }
    ensures times { KeepsTimes window.old window.new }
    ensures rule { assembler.new.rule ≡ assembler.old.rule }
    ensures both { (r : SlotRule) (z : List Item) → Both r z assembler.old window.old
        → Both r (z ++ front_of r.up_len epoch (block_of block.now) start) assembler.new window.new }
{
    if start == 0 {
        return;
    }
    take_piece(
        assembler,
        window,
        Mark::Inside,
        epoch,
        &block.field[..start],
    );
}

// The place where the first user packet begins, or the end of the data field.
fn start_of(block: &TakenBlock<'_>) -> usize
    requires { IsPlace block.now.first (length block.now.field.now) }
    ensures { IsStart block.now.first (length block.now.field.now) result }
{
    match block.first {
        Some(start) => start,
        None => block.field.len(),
    }
}

/// Takes a block.
pub fn take_block(
    assembler: &mut Assembler,
    window: &mut SlotWindow,
    block: &TakenBlock<'_>,
    epoch: u64,
)
    requires epoch { epoch < MOST_FRAMES }
    requires place { IsPlace block.now.first (length block.now.field.now) }
    ensures times { KeepsTimes window.old window.new }
    ensures rule { assembler.new.rule ≡ assembler.old.rule }
    ensures both { (r : SlotRule) (z : List Item) → Both r z assembler.old window.old
        → Both r (z ++ block_items r.up_len epoch (block_of block.now)) assembler.new window.new }
{
    let start = start_of(block);
    take_front(assembler, window, block, start, epoch);
    let mut at = start;
    while at < block.field.len() {
        at = take_up(assembler, window, block, start, at, epoch);
    }
}
