// The numbers of frames.
ghost use Rattle.std.specs.Prelude.{◌≡◌, ◌<◌, ◌≤◌, ◌+◌, ◌*◌, ◌^◌};
ghost use Rattle.frame_groups.specs.Numbers.{superframe_period, IsKey, next_number};

use crate::key::Key;
use crate::laws::next_law;
use plp_config::SUPERFRAME_PERIOD;

/// The least number above another whose frame has a key, if a superframe has so many frames.
pub fn next_number(frames: u8, number: u64, key: Key) -> u64
    requires some { 0 < frames }
    requires small { number ≤ 2 ^ 32 }
    ensures value { IsKey frames key → result ≡ next_number frames number key }
    ensures near { result ≤ number + superframe_period * frames }
{
    next_law();
    let period = SUPERFRAME_PERIOD * u64::from(frames);
    let place = u64::from(key.superframe) * u64::from(frames) + u64::from(key.frame);
    let first = number + 1;
    first + (place + period * first - first) % period
}
