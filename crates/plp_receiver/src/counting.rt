// Which user packets count.
ghost use Rattle.std.specs.Prelude.{◌≡◌, ◌^◌, ◌<◌, ◌+◌, ◌-◌};
ghost use Rattle.plp_config.specs.SlotTimes.{delay_of, over_by};
ghost use Rattle.plp_config.specs.declared.moment.TheConstants.{MOST_FRAMES};
ghost use Rattle.plp_receiver.specs.Sound.{IsSound};
ghost use Rattle.plp_receiver.specs.Readback.{counts_by};

use crate::assembler::Found;
use crate::slot_rule::SlotRule;
use crate::times::last_tick;

/// Whether a user packet that ends in an epoch counts: its slot is one of the epoch in which it begins, and is not
/// given out before the last frame of the epoch in which it ends.
pub fn counts(rule: &SlotRule, found: &Found, epoch: u64) -> bool
    requires sound { IsSound rule.now }
    requires begun { found.now.epoch < MOST_FRAMES }
    requires ended { epoch < MOST_FRAMES }
    ensures value { result ≡ counts_by rule.now (delay_of rule.now.times) found.now.slot found.now.epoch epoch }
    ensures near { over_by rule.now.times found.now.epoch < 2 ^ 53 }
{
    let (first, end) = rule.times.range_of(found.epoch);
    if found.slot < first || found.slot >= end {
        return false;
    }
    u128::from(last_tick(rule, epoch))
        < rule.times.start_of(found.slot) + u128::from(rule.times.delay())
}
