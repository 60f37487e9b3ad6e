// Times of the window.
ghost use Rattle.std.specs.Prelude.{◌≡◌, ◌*◌, ◌<◌, ◌≤◌};
ghost use Rattle.plp_config.specs.declared.moment.TheConstants.{MOST_FRAMES};
ghost use Rattle.plp_receiver.specs.Sound.{IsSound};
ghost use Rattle.plp_receiver.specs.Times.{last_frame, over_after, due_after};

use crate::slot_rule::SlotRule;

/// How many slots are over when so many frames have come.
pub fn over_after(rule: &SlotRule, frames: u64) -> u64
    requires sound { IsSound rule.now }
    requires few { frames ≤ MOST_FRAMES }
    ensures { result ≡ over_after rule.now frames }
{
    rule.times.slots_by(frames * rule.ticks)
}

/// How many slots are due when so many frames have ended.
pub fn due_after(rule: &SlotRule, frames: u64) -> u64
    requires sound { IsSound rule.now }
    requires few { frames ≤ MOST_FRAMES }
    ensures { result ≡ due_after rule.now frames }
{
    rule.times.due_by(frames * rule.ticks)
}

/// The tick at which the last frame of an epoch begins.
pub fn last_tick(rule: &SlotRule, epoch: u64) -> u64
    requires sound { IsSound rule.now }
    requires few { epoch < MOST_FRAMES }
    ensures { result ≡ last_frame rule.now epoch * rule.now.ticks }
{
    (epoch + 1) * rule.times.epoch - rule.ticks
}
