// One of two feeds is fed, or its input has ended.
ghost use Rattle.std.specs.Prelude.{◌<◌, ◌≤◌, ◌+◌, ◌^◌, ◌++◌, ◌∷◌, ℕ, List, [], false, length, take};
ghost use Rattle.plp_config.specs.declared.config.Config.{Config};
ghost use Rattle.frame_groups.specs.Modulated.{FrameRecord};
ghost use Rattle.file_run.specs.Events.{Event, Fed, Ended};
ghost use Rattle.file_run.specs.Steps.{Suffices, FallsShort};
ghost use Rattle.feed_merge.specs.FeedStandsFor.{fed_of};
ghost use Rattle.feed_merge.specs.Both.{AreFedWith, GoOn};
ghost use Rattle.feed_merge.specs.Reading.{fed_at, reach_by, step_for};

use crate::feed::FrameFeed;
use file_run::events_law;
use modulator::due_records_law;

/// Takes bytes of the input that they want: how many.
pub fn feed_one(a: &mut FrameFeed<'_>, b: &mut FrameFeed<'_>, input: usize, bytes: &[u8]) -> usize
    requires wanted { Suffices (step_for a.old b.old) input (length bytes.now) }
    requires room { fed_at (fed_of a.old) (fed_of b.old) input + length bytes.now < 2 ^ 60 }
    ensures some { (0 < result) × (result ≤ length bytes.now) }
    ensures go_on { (c : Config) (events : List Event) (next : ℕ) (given_a given_b : List FrameRecord)
        → AreFedWith c events false false next a.old b.old given_a given_b
        → GoOn c events (events ++ Fed input (take result bytes.now) ∷ []) next a.new b.new given_a given_b }
    ensures reach { (other : ℕ) → reach_by a.old b.old other ≤ reach_by a.new b.new other }
{
    events_law();
    due_records_law();
    if input == 0 {
        return a.feed(bytes);
    }
    b.feed(bytes)
}

/// The input that they want has ended.
pub fn end_one(a: &mut FrameFeed<'_>, b: &mut FrameFeed<'_>, input: usize, bytes: &[u8])
    requires wanted { FallsShort (step_for a.old b.old) input (length bytes.now) }
    ensures go_on { (c : Config) (events : List Event) (next : ℕ) (given_a given_b : List FrameRecord)
        → AreFedWith c events false false next a.old b.old given_a given_b
        → GoOn c events (events ++ Ended input bytes.now ∷ []) next a.new b.new given_a given_b }
    ensures reach { (other : ℕ) → reach_by a.old b.old other ≤ reach_by a.new b.new other }
{
    events_law();
    due_records_law();
    if input == 0 {
        a.finish();
        return;
    }
    b.finish();
}
