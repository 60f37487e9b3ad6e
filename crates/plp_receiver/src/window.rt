// The ring of the slots that are in range and not given out.
ghost use Rattle.std.specs.Prelude.{◌≡◌, ◌^◌, ◌<◌, ◌≤◌, ◌+◌, ◌-◌, ◌*◌, ◌++◌, length, replicate, None, IfOk, []};
ghost use Rattle.std.specs.declared.option.Option.{Option};
ghost use Rattle.plp_config.specs.SlotTime.{window_slots};
ghost use Rattle.plp_config.specs.SlotTimes.{delay_of};
ghost use Rattle.plp_receiver.specs.Sound.{IsSound};
ghost use Rattle.plp_receiver.specs.Filling.{filled};

use crate::assembler::Found;
use crate::counting::counts;
use crate::slot_rule::SlotRule;
use crate::times::{due_after, over_after};
use circular_buffer::HeapCircularBuffer;
use plp_config::{release_law, slot_time_law};
use std::alloc::{AllocError, Global};
use ts_packet::{SIZE, TsPacket};

/// The slots that have come into range and are not given out, each with its packet once that came.
#[derive(Drop)]
pub struct SlotWindow {
    rule: SlotRule,
    slots: HeapCircularBuffer<Option<TsPacket>>,
    // The slot at the front, and the one behind the last.
    first: u64,
    end: u64,
    // The slots before this one are due.
    due_end: u64,
    ghost sound: { IsSound rule },
    ghost room: { slots.capacity ≡ window_slots rule.times.num rule.times.den (delay_of rule.times) rule.ticks },
    ghost span: { first + length slots.items ≡ end },
    ghost known: { due_end ≤ end },
}

// Appends slots that have no packet yet.
fn push_empty(slots: &mut HeapCircularBuffer<Option<TsPacket>>, count: u64)
    requires { length slots.old.items + count ≤ slots.old.capacity }
    ensures items { slots.new.items ≡ slots.old.items ++ replicate count None }
    ensures capacity { slots.new.capacity ≡ slots.old.capacity }
    ensures longer { length slots.new.items ≡ length slots.old.items + count }
{
    for _ in 0..count {
        slots.push_back(None);
    }
}

// Gives the place of a slot its packet, unless it has one.
#[rattlefmt::skip]
#[tactic(auto, using(
    crate::proofs::FillLemmas::fill_none, crate::proofs::FillLemmas::fill_some, crate::proofs::FillLemmas::fill_past
))]
fn fill(slots: &mut HeapCircularBuffer<Option<TsPacket>>, place: u64, packet: TsPacket)
    ensures items { slots.new.items ≡ filled slots.old.items place packet }
    ensures capacity { slots.new.capacity ≡ slots.old.capacity }
    ensures same { length slots.new.items ≡ length slots.old.items }
{
    if let Some(slot) = slots.get_mut(place as usize) {
        if slot.is_none() {
            *slot = Some(packet);
        }
    }
}

impl SlotWindow {
    ghost use Rattle.plp_config.specs.declared.moment.TheConstants.{MOST_FRAMES};
    ghost use Rattle.plp_receiver.specs.Readback.{counts_by};
    ghost use Rattle.plp_config.specs.SlotTimes.{delay_of, over_by};
    ghost use Rattle.plp_receiver.specs.Times.{epoch_of, over_after, due_after};
    ghost use Rattle.plp_receiver.specs.Window.{status_of, begun, entered, put_in, left, given, front_packet};
    ghost use Rattle.std.specs.Prelude.{◌%◌, ◌==◌, true, false, nat_lt, if◌then◌else◌};

    /// Takes the memory of the window.
    ///
    /// # Errors
    /// There is no memory for it. No later call wants any.
    pub fn open(alloc: Global, rule: SlotRule) -> Result<SlotWindow, AllocError>
        requires { IsSound rule }
        ensures { IfOk result (λ w. status_of w ≡ record { rule = rule; slots = []; first = 0; end = 0; due_end = 0 }) }
    {
        Ok(SlotWindow {
            rule,
            slots: HeapCircularBuffer::with_capacity(
                alloc,
                rule.times.window(rule.ticks) as usize,
            )?,
            first: 0,
            end: 0,
            due_end: 0,
        })
    }

    /// The output begins with the first slot for records from a frame on.
    pub fn begin(&mut self, frame: u64)
        requires small { frame < MOST_FRAMES }
        requires empty { self.old.slots.items ≡ [] }
        ensures { status_of self.new ≡ begun (status_of self.old) frame }
    {
        let first = over_after(&self.rule, frame.saturating_sub(self.rule.spread));
        let due_end = due_after(&self.rule, frame);
        release_law();
        slot_time_law();
        self.first = first;
        self.end = first;
        self.due_end = due_end;
    }

    /// The slots of a frame come into range. Those that were due were given out.
    pub fn enter(&mut self, frame: u64)
        requires small { frame < MOST_FRAMES }
        requires next { self.old.end ≤ over_after self.old.rule frame }
        requires given_out { due_after self.old.rule frame ≤ self.old.first }
        ensures status { status_of self.new ≡ entered (status_of self.old) frame }
        ensures order { self.old.end ≤ self.new.end }
    {
        let end = over_after(&self.rule, frame);
        release_law();
        push_empty(&mut self.slots, end - self.end);
        self.end = end;
    }

    /// Whether a user packet that ends in an epoch counts: its slot is one of the epoch in which it begins, and was not
    /// given out before the last frame of the epoch in which it ends.
    pub fn counts(&self, found: &Found, epoch: u64) -> bool
        requires begun { found.now.epoch < MOST_FRAMES }
        requires ended { epoch < MOST_FRAMES }
        ensures value { result ≡ counts_by self.now.rule (delay_of self.now.rule.times) found.now.slot
            found.now.epoch epoch }
        ensures near { over_by self.now.rule.times found.now.epoch < 2 ^ 53 }
    {
        counts(&self.rule, found, epoch)
    }

    /// The epoch to which a frame belongs.
    pub fn epoch_of(&self, frame: u64) -> u64
        ensures value { result ≡ epoch_of self.now.rule frame }
        ensures most { result ≤ frame }
    {
        self.rule.epoch_of(frame)
    }

    /// Whether an epoch ends with a frame.
    pub fn is_last(&self, frame: u64) -> bool
        requires { frame < MOST_FRAMES }
        ensures { result ≡ ((frame + 1) % self.now.rule.spread == 0) }
    {
        (frame + 1) % self.rule.spread == 0
    }

    /// A slot gets its packet, unless it has one, or was given out.
    pub fn put(&mut self, slot: u64, packet: TsPacket)
        ensures { status_of self.new ≡ put_in (status_of self.old) slot packet }
    {
        if slot < self.first {
            return;
        }
        fill(&mut self.slots, slot - self.first, packet);
    }

    /// A frame has ended.
    pub fn leave(&mut self, frame: u64)
        requires small { frame < MOST_FRAMES }
        requires came { over_after self.old.rule frame ≤ self.old.end }
        ensures { status_of self.new ≡ left (status_of self.old) frame }
    {
        let due_end = due_after(&self.rule, frame + 1);
        release_law();
        slot_time_law();
        self.due_end = due_end;
    }

    /// How many slots are due.
    pub fn due(&self) -> u64
        ensures { result ≡ self.now.due_end - self.now.first }
    {
        self.due_end.saturating_sub(self.first)
    }

    /// How many slots are held: as many as the window of the PLP has at most.
    pub fn held(&self) -> u64
        ensures value { result ≡ self.now.end - self.now.first }
        ensures most { result ≤ window_slots self.now.rule.times.num self.now.rule.times.den
            (delay_of self.now.rule.times)
            self.now.rule.ticks }
    {
        self.slots.len() as u64
    }

    /// The packet of the next slot, if it is due: a null packet if none came.
    pub fn release(&mut self, out: &mut [u8; SIZE]) -> bool
        ensures due { result ≡ nat_lt self.old.first self.old.due_end }
        ensures status { status_of self.new ≡ (if result then given (status_of self.old) else status_of self.old) }
        ensures same { result ≡ false → self.new ≡ self.old }
        ensures packet { out.new ≡ (if result then front_packet (status_of self.old) else out.old) }
    {
        if self.first >= self.due_end {
            return false;
        }
        let Some(slot) = self.slots.pop_front() else {
            return false;
        };
        *out = *slot.unwrap_or(TsPacket::canonical()).as_array();
        self.first += 1;
        true
    }
}
