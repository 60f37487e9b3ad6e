// What the feeds have of a frame, by the records that wait.
ghost use Rattle.std.specs.Prelude.{◌≡◌, ◌≤◌, ◌+◌, ◌↔◌, IsTrue, List, [], Some, None, IfSome, length, true, false};
ghost use Rattle.std.specs.Option.{option_copied};
ghost use Rattle.frame_groups.specs.Modulated.{Numbered};
ghost use Rattle.frame_groups.specs.Begun.{packets_at};
ghost use Rattle.feed_merge.specs.FeedStandsFor.{config_of, waiting_of};
ghost use Rattle.feed_merge.specs.Picking.{is_at as is_at_by};
ghost use Rattle.feed_merge.specs.Reading.{least_of};
ghost use Rattle.feed_merge.specs.Seen.{seen_of};
ghost use Rattle.compare_run.specs.Comparing.{place_of, sides_answer, whole_answer};
ghost use Rattle.compare_run.specs.Runs.{is_differing};
ghost use Rattle.compare_run.specs.TallyStandsFor.{lists_in, Brings, NothingBetween, CarriedStandsFor, AreOthers};
ghost use Rattle.compare_run.specs.TallyStandsFor.{plps_in};
ghost use Rattle.compare_run.specs.declared.answer.Side.TheVariants.{Whole};
ghost use Rattle.compare_run.specs.Taking.{side_at as side_at_by, IsOfFeed};

use crate::answer::{Answer, Place, Side};
use crate::answering::{Carried, answer_by};
use feed_merge::FrameFeed;
use frame_groups::Waiting;
use linked_pool::Pool;
use plp_config::Plan;

/// Whether the record that waits is of a frame.
pub fn is_at(number: u64, waiting: Option<Waiting>) -> bool
    ensures { result ≡ is_at_by number (seen_of waiting) }
{
    match waiting {
        Some(record) => record.frame == number,
        None => false,
    }
}

// What a feed has of a frame, by the record that waits.
fn side_at(number: u64, waiting: Option<Waiting>) -> Side
    ensures { result ≡ side_at_by number waiting }
{
    let Some(record) = waiting else {
        return Side::Absent;
    };
    if record.frame != number {
        return Side::Absent;
    }
    if record.mute.is_some() {
        return Side::Muted;
    }
    Side::Whole
}

// Whether a frame is sent.
fn is_sent(side: Side) -> bool
    ensures { IsTrue result ↔ (side ≡ Whole) }
{
    matches!(side, Side::Whole)
}

// The blocks that came of a frame, if its record waits.
fn shown_at<'f>(feed: &'f FrameFeed<'_>, number: u64) -> Option<&'f Pool>
    ensures brings { is_at_by number (seen_of (waiting_of feed.now)) ≡ true → (gs : List Numbered)
        → IsOfFeed feed.now gs
        → Brings (config_of feed.now) gs number (lists_in (option_copied result)) }
    ensures none { is_at_by number (seen_of (waiting_of feed.now)) ≡ false → lists_in (option_copied result) ≡ None }
    ensures lists { IfSome result (λ pool. length pool.now.lists ≡ length (config_of feed.now).plps) }
{
    if !is_at(number, feed.waiting()) {
        return None;
    }
    feed.blocks()
}

/// Notes what came of a frame in both feeds. Those below `next` were noted, and of those between no packet came.
pub fn note(
    carried: &mut Carried,
    plan: &Plan,
    next: u64,
    number: u64,
    a: &FrameFeed<'_>,
    b: &FrameFeed<'_>,
)
    requires plps { plps_in carried.old ≡ length plan.now.plps }
    requires plps_a { length (config_of a.now).plps ≡ length plan.now.plps }
    requires plps_b { length (config_of b.now).plps ≡ length plan.now.plps }
    requires forward { next ≤ number }
    ensures stands { config_of a.now ≡ plan.now → config_of b.now ≡ plan.now
        → (ga gb : List Numbered) → CarriedStandsFor carried.old plan.now next ga gb → IsOfFeed a.now ga
        → IsOfFeed b.now gb
        → (is_at_by number (seen_of (waiting_of a.now)) ≡ false → packets_at ga number ≡ [])
        → (is_at_by number (seen_of (waiting_of b.now)) ≡ false → packets_at gb number ≡ [])
        → NothingBetween ga next number → NothingBetween gb next number
        → CarriedStandsFor carried.new plan.now (number + 1) ga gb }
    ensures plps { plps_in carried.new ≡ plps_in carried.old }
{
    let first = shown_at(a, number);
    let second = shown_at(b, number);
    carried.note(plan, next, number, first, second);
}

// Where a frame that was noted differs first, if both send it; and then what is noted of each PLP is of this frame.
fn place_at(
    carried: &Carried,
    plan: &Plan,
    number: u64,
    a: &FrameFeed<'_>,
    b: &FrameFeed<'_>,
) -> Option<Place>
    requires plps { plps_in carried.now ≡ length plan.now.plps }
    ensures { config_of a.now ≡ plan.now → config_of b.now ≡ plan.now
        → (ga gb : List Numbered) → CarriedStandsFor carried.now plan.now (number + 1) ga gb → IsOfFeed a.now ga
        → IsOfFeed b.now gb
        → side_at_by number (waiting_of a.now) ≡ Whole → side_at_by number (waiting_of b.now) ≡ Whole
        → (result ≡ place_of plan.now number ga gb) × AreOthers carried.now plan.now number ga gb }
{
    if !is_sent(side_at(number, a.waiting())) || !is_sent(side_at(number, b.waiting())) {
        return None;
    }
    let first = a.frame();
    let second = b.frame();
    carried.place(plan, &first.dynamic, &second.dynamic)
}

/// What both feeds have of a frame that was noted, of the least number that waits. If it differs, what is noted of each
/// PLP is of this frame.
pub fn answer_at(
    carried: &Carried,
    plan: &Plan,
    number: u64,
    a: &FrameFeed<'_>,
    b: &FrameFeed<'_>,
) -> Answer
    requires plps { plps_in carried.now ≡ length plan.now.plps }
    requires least { least_of (waiting_of a.now) (waiting_of b.now) ≡ Some number }
    ensures answer { config_of a.now ≡ plan.now → config_of b.now ≡ plan.now
        → (ga gb : List Numbered) → CarriedStandsFor carried.now plan.now (number + 1) ga gb → IsOfFeed a.now ga
        → IsOfFeed b.now gb
        → Some result ≡ sides_answer (side_at_by number (waiting_of a.now)) (side_at_by number (waiting_of b.now))
        (whole_answer plan.now number ga gb) }
    ensures others { config_of a.now ≡ plan.now → config_of b.now ≡ plan.now
        → (ga gb : List Numbered) → CarriedStandsFor carried.now plan.now (number + 1) ga gb
        → IsOfFeed a.now ga → IsOfFeed b.now gb → is_differing result ≡ true
        → AreOthers carried.now plan.now number ga gb }
{
    let place = place_at(carried, plan, number, a, b);
    let first = side_at(number, a.waiting());
    let second = side_at(number, b.waiting());
    answer_by(first, second, place).unwrap()
}
