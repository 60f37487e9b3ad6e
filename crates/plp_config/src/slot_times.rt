// The slots of a PLP, and which of them an interleaving frame carries (EN 302 755, clause 5.1 and annex C).
ghost use Rattle.std.specs.Prelude.{◌≡◌, ◌-◌, ◌*◌, ◌%◌, ◌^◌, ◌<◌, ◌≤◌, IfSome};
ghost use Rattle.std.specs.Int.{div_ceil};
ghost use Rattle.plp_config.specs.SlotTime.{slot_start, slot_count, window_slots};
ghost use Rattle.plp_config.specs.SlotTime.{tick_of_iscr};

use crate::laws::{iscr_law, slot_time_law};
use crate::moment::{ISCR_TICKS, MOST_FRAMES};

/// The slots of a PLP, and its interleaving frames, in ticks.
///
/// A slot lasts `num / den` ticks, a fraction that is not reduced. An interleaving frame is an epoch of the slots: its
/// blocks carry the user packets of the slots that end in it.
#[derive(Clone, Copy, Debug, PartialEq, Eq)]
pub struct SlotTimes {
    /// From `den` to 2^38 - 1.
    pub num: u64,
    /// 1 at least.
    pub den: u64,
    /// Ticks of an interleaving frame, from 1 to 2^22 - 1.
    pub epoch: u64,
}

impl SlotTimes {
    ghost use Rattle.plp_config.specs.SlotTimes.{AreSlotTimes, delay_of, over_by, due_by, slot_of_iscr};

    /// The tick at which a slot starts.
    pub fn start_of(&self, slot: u64) -> u128
        requires are { AreSlotTimes self.now }
        ensures value { result ≡ slot_start self.now.num self.now.den slot }
        ensures small { result < 2 ^ 102 }
    {
        u128::from(slot) * u128::from(self.num) / u128::from(self.den)
    }

    /// How many slots are over by a tick.
    pub fn slots_by(&self, tick: u64) -> u64
        requires are { AreSlotTimes self.now }
        ensures value { result ≡ slot_count self.now.num self.now.den tick }
        ensures small { result ≤ tick }
    {
        (u128::from(tick) * u128::from(self.den) / u128::from(self.num)) as u64
    }

    /// The constant delay: the ticks from the start of a slot until its packet is due.
    pub fn delay(&self) -> u64
        requires are { AreSlotTimes self.now }
        ensures value { result ≡ delay_of self.now }
        ensures small { result < 2 ^ 39 }
    {
        self.num.div_ceil(self.den) + 1 + 3 * self.epoch
    }

    /// How many slots a receiver holds at most, if a frame has so many ticks.
    pub fn window(&self, ticks: u64) -> u64
        requires are { AreSlotTimes self.now }
        requires ticks { ticks < ISCR_TICKS }
        ensures value { result ≡ window_slots self.now.num self.now.den (delay_of self.now) ticks }
        ensures small { result < 2 ^ 41 }
    {
        let ticks = self.delay() + ticks;
        (u128::from(ticks) * u128::from(self.den)).div_ceil(u128::from(self.num)) as u64 + 2
    }

    /// How many slots are due by a tick: their packets are given out.
    pub fn due_by(&self, tick: u64) -> u64
        requires are { AreSlotTimes self.now }
        requires tick { tick < 2 ^ 54 }
        ensures { result ≡ due_by self.now tick }
    {
        let ticks = (tick + 1).saturating_sub(self.delay());
        (u128::from(ticks) * u128::from(self.den)).div_ceil(u128::from(self.num)) as u64
    }

    /// ISCR of a slot: the lowest 22 bits of the tick at which it starts (EN 302 755, annex C).
    pub fn iscr_of(&self, slot: u64) -> u32
        requires are { AreSlotTimes self.now }
        ensures value { result ≡ slot_start self.now.num self.now.den slot % ISCR_TICKS }
        ensures small { result < ISCR_TICKS }
    {
        (self.start_of(slot) % u128::from(ISCR_TICKS)) as u32
    }

    // How many slots are over when so many interleaving frames have ended.
    fn over_by(&self, epochs: u64) -> u64
        requires are { AreSlotTimes self.now }
        requires few { epochs ≤ MOST_FRAMES }
        ensures value { result ≡ over_by self.now epochs }
        ensures far { result * self.now.num ≤ 2 ^ 53 * self.now.den }
        ensures small { result ≤ 2 ^ 53 }
    {
        self.slots_by(epochs * self.epoch)
    }

    /// The slots of an interleaving frame: those from the first number on, below the second.
    pub fn range_of(&self, epoch: u64) -> (u64, u64)
        requires are { AreSlotTimes self.now }
        requires few { epoch ≤ MOST_FRAMES }
        ensures first { result.0 ≡ over_by self.now (epoch - 1) }
        ensures end { result.1 ≡ over_by self.now epoch }
        ensures order { result.0 ≤ result.1 }
        ensures far { (result.0 * self.now.num ≤ 2 ^ 53 * self.now.den)
            × (result.1 * self.now.num ≤ 2 ^ 53 * self.now.den) }
        ensures small { (result.0 ≤ 2 ^ 53) × (result.1 ≤ 2 ^ 53) }
    {
        slot_time_law();
        (self.over_by(epoch.saturating_sub(1)), self.over_by(epoch))
    }

    // The tick at which a slot starts that is over early.
    fn early_start(&self, slot: u64) -> u64
        requires are { AreSlotTimes self.now }
        requires early { slot * self.now.num ≤ 2 ^ 53 * self.now.den }
        ensures value { result ≡ slot_start self.now.num self.now.den slot }
        ensures small { result ≤ 2 ^ 53 }
    {
        (u128::from(slot) * u128::from(self.num) / u128::from(self.den)) as u64
    }

    // The first slot that starts at a tick or later.
    fn slot_from(&self, tick: u64) -> u64
        requires are { AreSlotTimes self.now }
        requires tick { tick < 2 ^ 54 }
        ensures { result ≡ div_ceil (tick * self.now.den) self.now.num }
    {
        (u128::from(tick) * u128::from(self.den)).div_ceil(u128::from(self.num)) as u64
    }

    // The slot that an ISCR names, if it is one of those from a slot on.
    fn slot_named(&self, first: u64, iscr: u32) -> u64
        requires are { AreSlotTimes self.now }
        requires over { first * self.now.num ≤ 2 ^ 53 * self.now.den }
        requires iscr { iscr < ISCR_TICKS }
        ensures { result ≡ div_ceil (tick_of_iscr (slot_start self.now.num self.now.den first) iscr * self.now.den)
            self.now.num }
    {
        let from = self.early_start(first);
        let tick = from + (u64::from(iscr) + ISCR_TICKS - from % ISCR_TICKS) % ISCR_TICKS;
        self.slot_from(tick)
    }

    /// The slot of an interleaving frame that an ISCR names: the one whose ISCR it is. `None` if there is none.
    pub fn slot_of_iscr(&self, epoch: u64, iscr: u32) -> Option<u64>
        requires are { AreSlotTimes self.now }
        requires small { epoch ≤ MOST_FRAMES }
        requires iscr { iscr < ISCR_TICKS }
        ensures value { result ≡ slot_of_iscr self.now epoch iscr }
        ensures small { IfSome result (λ slot. slot < 2 ^ 53) }
    {
        iscr_law();
        let (first, end) = self.range_of(epoch);
        let slot = self.slot_named(first, iscr);
        if slot < first {
            return None;
        }
        if slot >= end {
            return None;
        }
        if self.iscr_of(slot) != iscr {
            return None;
        }
        Some(slot)
    }
}
