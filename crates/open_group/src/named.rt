// The frame that a timestamp names.
ghost use Rattle.std.specs.Prelude.{◌≡◌, ◌≢◌, ◌↔◌, ◌<◌, ℕ, IsTrue, IfSome, IfNone, slice_get};
ghost use Rattle.plp_config.specs.Emission.{emission};
ghost use Rattle.frame_groups.specs.Groups.{Group};
ghost use Rattle.frame_groups.specs.Numbers.{frame_key};
ghost use Rattle.frame_groups.specs.Carried.{stamps_of};
ghost use Rattle.plp_config.specs.declared.moment.TheConstants.{MOST_FRAMES};
ghost use Rattle.frame_groups.specs.Tests.{moment_of, named_frame};

use crate::stamps::HeldStamps;
use frame_groups::{Key, named_law};
use plp_config::{Moment, Plan, emission_law};
use site_frame::place_record;
use t2mi_packet::Stamp;

// The frame of a run that leaves when a timestamp tells.
fn frame_at(plan: &Plan, stamp: Stamp) -> Option<u64>
    ensures some { IfSome result (λ n. (n < MOST_FRAMES) × (moment_of stamp ≡ emission plan.now n)) }
    ensures none { IfNone result ((n : ℕ) → n < MOST_FRAMES → moment_of stamp ≢ emission plan.now n) }
{
    let moment = Moment {
        seconds: stamp.seconds,
        subseconds: stamp.subseconds,
    };
    place_record(plan, None, &moment).ok()
}

// Whether a frame has a key.
fn has_key(plan: &Plan, number: u64, key: Key) -> bool
    ensures { IsTrue result ↔ (frame_key plan.now.frames number ≡ key) }
{
    let own = Key {
        superframe: plan.superframe_idx(number),
        frame: plan.frame_idx(number),
    };
    own == key
}

/// The frame that the first timestamp of a group with a key names.
pub fn named(plan: &Plan, key: Key, stamps: HeldStamps) -> Option<u64>
    ensures value { (g : Group) → g.key ≡ key → stamps.first ≡ slice_get (stamps_of g.packets) 0
        → result ≡ named_frame plan.now g }
    ensures small { IfSome result (λ n. n < MOST_FRAMES) }
{
    named_law();
    emission_law();
    plan.rules_law();
    let Some(stamp) = stamps.first else {
        return None;
    };
    let Some(number) = frame_at(plan, stamp) else {
        return None;
    };
    if !has_key(plan, number, key) {
        return None;
    }
    Some(number)
}
