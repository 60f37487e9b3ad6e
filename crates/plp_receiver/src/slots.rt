// The slots of a PLP.
ghost use Rattle.std.specs.Prelude.{◌≡◌, ◌<◌, ◌≤◌, ◌+◌, ◌-◌, ◌++◌, ◌∷◌, [], length, List, ℕ, IfOk, true, false};
ghost use Rattle.std.specs.Prelude.{slice_get, Some, None, Option, if◌then◌else◌};
ghost use Rattle.plp_config.specs.SlotTime.{window_slots};
ghost use Rattle.plp_config.specs.SlotTimes.{delay_of};
ghost use Rattle.plp_receiver.specs.Times.{due_after};
ghost use Rattle.plp_receiver.specs.Window.{Reaches};

use crate::assembler::Assembler;
use crate::block::{TakenBlock, take_block};
use crate::slot_rule::SlotRule;
use crate::window::SlotWindow;
use plp_config::{release_law, slot_time_law};
use std::alloc::{AllocError, Global};
use ts_packet::SIZE;

/// Puts the user packets of successive interleaving frames into their slots, and gives each slot's packet out once it
/// is due.
///
/// Of each frame, [`pass`](Self::pass), unless an interleaving frame ends with it. Of one that does,
/// [`begin_frame`](Self::begin_frame), then each block of the interleaving frame in order, then
/// [`end_frame`](Self::end_frame); or [`lose`](Self::lose), if the interleaving frame is not there. Behind that, all
/// slots that are due must be given out.
#[derive(Drop)]
pub struct PacketSlots {
    assembler: Assembler,
    window: SlotWindow,
    // The frame that comes next, or that is under way.
    frame: u64,
    in_frame: bool,
    ghost same: { assembler.rule ≡ window.rule },
    ghost reached: { Reaches window.rule in_frame frame window.end },
    ghost known: { window.due_end ≡ due_after window.rule frame },
}

impl PacketSlots {
    ghost use Rattle.plp_config.specs.declared.moment.TheConstants.{MOST_FRAMES};
    ghost use Rattle.plp_receiver.specs.declared.slot_rule.SlotRule.{SlotRule};
    ghost use Rattle.plp_receiver.specs.Sound.{IsSound};
    ghost use Rattle.plp_receiver.specs.Strings.{Block};
    ghost use Rattle.plp_receiver.specs.SlotEpochs.{Epoch, lost_epoch, epoch_with, readback, held_slots};
    ghost use Rattle.plp_receiver.specs.TakenBlocks.{block_of, IsPlace};
    ghost use Rattle.std.specs.Prelude.{nat_lt};
    ghost use Rattle.plp_receiver.specs.Window.{status_of, left};
    ghost use Rattle.plp_receiver.specs.SlotsStandFor.{PacketSlotsStandsFor, StandsWithin, IsFresh, IsEmpty, frame_of};
    ghost use Rattle.plp_receiver.specs.SlotsStandFor.{is_within, due_of};
    ghost use Rattle.plp_receiver.specs.SlotsStandFor.{rule_of, ends_epoch, slots_status, new_status};

    /// Takes all the memory that is needed.
    ///
    /// # Errors
    /// There is no memory for it. No later call wants any.
    pub fn open(alloc: Global, rule: SlotRule) -> Result<PacketSlots, AllocError>
        requires { IsSound rule }
        ensures fresh { IfOk result (λ p. IsFresh p rule) }
        ensures empty { IfOk result IsEmpty }
        ensures status { IfOk result (λ p. slots_status p ≡ new_status rule) }
    {
        release_law();
        Ok(PacketSlots {
            assembler: Assembler::new(rule),
            window: SlotWindow::open(alloc, rule)?,
            frame: 0,
            in_frame: false,
        })
    }

    /// Names the frame of the first record.
    pub fn begin_at(&mut self, first: u64)
        requires small { first < MOST_FRAMES }
        requires outside { is_within self.old ≡ false }
        requires empty { IsEmpty self.old }
        ensures stands { (r : SlotRule) → IsFresh self.old r → PacketSlotsStandsFor self.new r first 0 [] 0 }
        ensures status { slots_status self.new ≡ record (slots_status self.old) { frame = first; due = 0 } }
    {
        self.window.begin(first);
        slot_time_law();
        self.frame = first;
    }

    /// The next frame begins. All slots that are due were given out.
    pub fn begin_frame(&mut self)
        requires small { frame_of self.old < MOST_FRAMES }
        requires outside { is_within self.old ≡ false }
        requires given_out { due_of self.old ≡ 0 }
        ensures stands { (r : SlotRule) (first count : ℕ) (epochs : List Epoch) (released : ℕ)
            → PacketSlotsStandsFor self.old r first count epochs released
            → StandsWithin self.new r first count epochs [] released }
        ensures status { slots_status self.new ≡ record (slots_status self.old) { within = true } }
    {
        self.window.enter(self.frame);
        slot_time_law();
        self.in_frame = true;
    }

    /// Takes the next block of the epoch that ends with the frame.
    pub fn take(&mut self, block: &TakenBlock<'_>)
        requires small { frame_of self.old < MOST_FRAMES }
        requires within { is_within self.old ≡ true }
        requires place { IsPlace block.now.first (length block.now.field.now) }
        ensures stands { (r : SlotRule) (first count : ℕ) (epochs : List Epoch) (blocks : List (Option Block))
            (released : ℕ)
            → StandsWithin self.old r first count epochs blocks released
            → StandsWithin self.new r first count epochs (blocks ++ Some (block_of block.now) ∷ []) released }
        ensures status { slots_status self.new ≡ slots_status self.old }
    {
        let epoch = self.window.epoch_of(self.frame);
        take_block(&mut self.assembler, &mut self.window, block, epoch);
    }

    /// The next block of the epoch is not taken.
    pub fn skip(&mut self)
        requires within { is_within self.old ≡ true }
        ensures stands { (r : SlotRule) (first count : ℕ) (epochs : List Epoch) (blocks : List (Option Block))
            (released : ℕ)
            → StandsWithin self.old r first count epochs blocks released
            → StandsWithin self.new r first count epochs (blocks ++ None ∷ []) released }
        ensures status { slots_status self.new ≡ slots_status self.old }
    {
        self.assembler.gap();
    }

    // The frame has ended.
    fn leave(&mut self)
        requires small { frame_of self.old < MOST_FRAMES }
        requires within { is_within self.old ≡ true }
        ensures assembler { self.new.assembler ≡ self.old.assembler }
        ensures window { status_of self.new.window ≡ left (status_of self.old.window) (frame_of self.old) }
        ensures status { slots_status self.new ≡ record (slots_status self.old) {
          frame = frame_of self.old + 1;
          within = false;
          due = due_of self.new;
        } }
    {
        self.window.leave(self.frame);
        slot_time_law();
        self.frame += 1;
        self.in_frame = false;
    }

    /// The frame has ended, and an epoch with it: its blocks were taken.
    pub fn end_frame(&mut self)
        requires small { frame_of self.old < MOST_FRAMES }
        requires within { is_within self.old ≡ true }
        requires last { ends_epoch self.old ≡ true }
        ensures stands { (r : SlotRule) (first count : ℕ) (epochs : List Epoch) (blocks : List (Option Block))
            (released : ℕ)
            → StandsWithin self.old r first count epochs blocks released
            → PacketSlotsStandsFor self.new r first (count + 1) (epochs ++ epoch_with blocks ∷ []) released }
        ensures status { slots_status self.new ≡ record (slots_status self.old) {
          frame = frame_of self.old + 1;
          within = false;
          due = due_of self.new;
        } }
    {
        self.leave();
    }

    /// An epoch ends with the next frame, and is not there. All slots that are due were given out.
    pub fn lose(&mut self)
        requires small { frame_of self.old < MOST_FRAMES }
        requires outside { is_within self.old ≡ false }
        requires given_out { due_of self.old ≡ 0 }
        requires last { ends_epoch self.old ≡ true }
        ensures stands { (r : SlotRule) (first count : ℕ) (epochs : List Epoch) (released : ℕ)
            → PacketSlotsStandsFor self.old r first count epochs released
            → PacketSlotsStandsFor self.new r first (count + 1) (epochs ++ lost_epoch ∷ []) released }
        ensures status { slots_status self.new ≡ record (slots_status self.old) {
          frame = frame_of self.old + 1;
          within = false;
          due = due_of self.new;
        } }
    {
        self.begin_frame();
        self.skip();
        self.leave();
    }

    /// The next frame comes, and no epoch ends with it. All slots that are due were given out.
    pub fn pass(&mut self)
        requires small { frame_of self.old < MOST_FRAMES }
        requires outside { is_within self.old ≡ false }
        requires given_out { due_of self.old ≡ 0 }
        requires inner { ends_epoch self.old ≡ false }
        ensures stands { (r : SlotRule) (first count : ℕ) (epochs : List Epoch) (released : ℕ)
            → PacketSlotsStandsFor self.old r first count epochs released
            → PacketSlotsStandsFor self.new r first (count + 1) epochs released }
        ensures status { slots_status self.new ≡ record (slots_status self.old) {
          frame = frame_of self.old + 1;
          within = false;
          due = due_of self.new;
        } }
    {
        self.begin_frame();
        self.leave();
    }

    /// The number of the frame that comes next, or that is under way.
    pub fn frame(&self) -> u64
        ensures { result ≡ frame_of self.now }
    {
        self.frame
    }

    /// Whether an epoch ends with that frame.
    pub fn ends_epoch(&self) -> bool
        requires { frame_of self.now < MOST_FRAMES }
        ensures { result ≡ ends_epoch self.now }
    {
        self.window.is_last(self.frame)
    }

    /// How many slots are due and not given out.
    pub fn due(&self) -> u64
        ensures value { result ≡ due_of self.now }
        ensures fresh { (r : SlotRule) → IsFresh self.now r → result ≡ 0 }
        ensures answer { (r : SlotRule) (first count : ℕ) (epochs : List Epoch) (released : ℕ)
            → PacketSlotsStandsFor self.now r first count epochs released
            → result ≡ length (readback r first count epochs) - released }
    {
        self.window.due()
    }

    /// How many slots are in the window: those that have come into range and were not given out.
    pub fn held(&self) -> u64
        ensures fresh { (r : SlotRule) → IsFresh self.now r → result ≡ 0 }
        ensures most { result ≤ window_slots (rule_of self.now).times.num (rule_of self.now).times.den
            (delay_of (rule_of self.now).times) (rule_of self.now).ticks }
        ensures answer { (r : SlotRule) (first count : ℕ) (epochs : List Epoch) (released : ℕ)
            → PacketSlotsStandsFor self.now r first count epochs released
            → result ≡ held_slots r first count - released }
    {
        self.window.held()
    }

    /// The packet of the next slot, if one is due: `false` exactly if none is.
    pub fn release(&mut self, out: &mut [u8; SIZE]) -> bool
        ensures stands { (r : SlotRule) (first count : ℕ) (epochs : List Epoch) (released : ℕ)
            → PacketSlotsStandsFor self.old r first count epochs released
            → PacketSlotsStandsFor self.new r first count epochs (if result then released + 1 else released) }
        ensures answer { result ≡ true → (r : SlotRule) (first count : ℕ) (epochs : List Epoch) (released : ℕ)
            → PacketSlotsStandsFor self.old r first count epochs released
            → slice_get (readback r first count epochs) released ≡ Some out.new }
        ensures none { result ≡ false → (r : SlotRule) (first count : ℕ) (epochs : List Epoch) (released : ℕ)
            → PacketSlotsStandsFor self.old r first count epochs released
            → length (readback r first count epochs) ≤ released }
        ensures exact { result ≡ nat_lt 0 (due_of self.old) }
        ensures same { result ≡ false → self.new ≡ self.old }
        ensures kept { result ≡ false → out.new ≡ out.old }
        ensures status { slots_status self.new ≡ record (slots_status self.old) { due = due_of self.old - 1 } }
    {
        if self.window.due() == 0 {
            return false;
        }
        self.window.release(out)
    }
}
