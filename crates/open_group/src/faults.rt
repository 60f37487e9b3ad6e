// Our six tests of a group, by what is held of it; `frame_groups` defines them. The fields are those of ETSI TS 102
// 773, clause 5.
ghost use Rattle.std.specs.Prelude.{◌≡◌, ◌<◌, ◌≤◌, ◌^◌, true, IsNone, List, length};
ghost use Rattle.std.specs.Option.{option_and_then};
ghost use Rattle.frame_groups.specs.Modulated.{Numbered};
ghost use Rattle.frame_groups.specs.Sequenced.{IsAbove};
ghost use Rattle.frame_groups.specs.Tally.{Tally, tally_room, tally_pool, tally_missing, tally_l1, first_late};
ghost use Rattle.frame_groups.specs.Tally.{tally_time, tally_counts, tally_shape, tally_blocks, tally_map, tally_fault};
ghost use Rattle.frame_groups.specs.Tests.{begins_superframe, pool_chunks, stamp_agrees, disagrees, has_map};
ghost use Rattle.open_group.specs.HoldsBlocks.{IsOpenFor, HoldsCounts};
ghost use Rattle.open_group.specs.HoldsL1.{HoldsL1, shape_told};
ghost use Rattle.open_group.specs.HoldsPast.{AreSized, HoldsPast};
ghost use Rattle.open_group.specs.HoldsStamps.{HoldsStamps};

use crate::blocks::HeldBlocks;
use crate::l1::HeldL1;
use crate::past::HeldPast;
use crate::stamps::HeldStamps;
use frame_groups::{MuteCause, map_passes};
use plp_config::Plan;
use t2mi_packet::Stamp;

// Whether a frame begins a superframe.
fn begins_superframe(plan: &Plan, number: u64) -> bool
    ensures { result ≡ begins_superframe plan.now number }
{
    plan.frame_idx(number) == 0
}

// The blocks that have the length of their PLP have room.
fn room_fault(plan: &Plan, blocks: &HeldBlocks) -> Option<MuteCause>
    requires { blocks.now.chunks ≡ pool_chunks plan.now }
    ensures cause { (t : Tally) → HoldsCounts plan.now blocks.now t → result ≡ tally_room plan.now t }
    ensures room { IsNone result → blocks.now.need ≤ blocks.now.chunks }
{
    let (chunks, need) = blocks.chunks();
    if need <= chunks {
        return None;
    }
    Some(MuteCause::PoolFull {
        need,
        spare: chunks,
    })
}

/// a: so have those of the groups before in which interleaving frames begin that the frame carries, and before all
/// others.
pub fn pool_fault(
    plan: &Plan,
    number: u64,
    blocks: &HeldBlocks,
    past: &HeldPast,
) -> Option<MuteCause>
    requires chunks { blocks.now.chunks ≡ pool_chunks plan.now }
    requires sized { AreSized plan.now past.now }
    ensures cause { (before : List Numbered) (t : Tally) → HoldsPast plan.now past.now before → IsAbove before number
        → HoldsCounts plan.now blocks.now t → result ≡ tally_pool plan.now before number t }
    ensures room { IsNone result → blocks.now.need ≤ blocks.now.chunks }
{
    if let Some(cause) = past.fault(plan, number) {
        return Some(cause);
    }
    room_fault(plan, blocks)
}

/// b: there is an L1-current, and a timestamp if a superframe begins.
pub fn missing_fault(plan: &Plan, number: u64, l1: &HeldL1, stamps: HeldStamps) -> Option<MuteCause>
    ensures { (t : Tally) → HoldsL1 plan.now l1.now t.l1 t.alike → HoldsStamps stamps t
        → result ≡ tally_missing plan.now number t }
{
    if l1.is_held() && (!begins_superframe(plan, number) || stamps.first.is_some()) {
        return None;
    }
    Some(MuteCause::PacketMissing)
}

/// c: all L1-current packets are the same, and those of the configuration and the frame.
pub fn l1_fault(plan: &Plan, number: u64, l1: &HeldL1) -> Option<MuteCause>
    requires rows { length l1.now.dynamic.plps ≡ length plan.now.plps }
    ensures { (t : Tally) → HoldsL1 plan.now l1.now t.l1 t.alike → result ≡ tally_l1 plan.now number t }
{
    if l1.agrees(plan, number) {
        return None;
    }
    Some(MuteCause::L1Refused)
}

// Whether a timestamp tells the bandwidth and the emission of a frame.
fn stamp_agrees(plan: &Plan, number: u64, stamp: Stamp) -> bool
    requires { number < 2 ^ 32 }
    ensures { result ≡ stamp_agrees plan.now number stamp }
{
    let emission = plan.emission(number);
    stamp.bw == plan.config().band.bw()
        && stamp.seconds == emission.seconds
        && stamp.subseconds == emission.subseconds
}

// The first timestamp that does not.
fn late(plan: &Plan, number: u64, stamps: HeldStamps) -> Option<Stamp>
    requires { number < 2 ^ 32 }
    ensures { (t : Tally) → HoldsStamps stamps t → result ≡ option_and_then (first_late plan.now number t) t.stamp }
{
    let first = stamps.first?;
    if stamp_agrees(plan, number, first) {
        return stamps.unlike;
    }
    Some(first)
}

fn disagrees(plan: &Plan, number: u64, stamp: Stamp) -> MuteCause
    requires { number < 2 ^ 32 }
    ensures { result ≡ disagrees plan.now number stamp }
{
    MuteCause::TimeDisagrees {
        stamp,
        counted: plan.emission(number),
    }
}

/// d: if a superframe begins, each timestamp tells the bandwidth and the emission of the frame.
pub fn time_fault(plan: &Plan, number: u64, stamps: HeldStamps) -> Option<MuteCause>
    requires { number < 2 ^ 32 }
    ensures { (t : Tally) → HoldsStamps stamps t → result ≡ tally_time plan.now number t }
{
    if !begins_superframe(plan, number) {
        return None;
    }
    match late(plan, number, stamps) {
        Some(stamp) => Some(disagrees(plan, number, stamp)),
        None => None,
    }
}

// Whether the blocks are those that the first L1-current tells.
fn has_blocks(plan: &Plan, number: u64, l1: &HeldL1, blocks: &HeldBlocks, past: &HeldPast) -> bool
    requires rows { length l1.now.dynamic.plps ≡ length plan.now.plps }
    requires open { IsOpenFor blocks.now (length plan.now.plps) }
    requires sized { AreSized plan.now past.now }
    ensures { (before : List Numbered) (t : Tally) → HoldsPast plan.now past.now before → IsAbove before number
        → HoldsL1 plan.now l1.now t.l1 t.alike → HoldsCounts plan.now blocks.now t
        → result ≡ tally_counts plan.now before number t (tally_shape plan.now t) }
{
    match l1.shape() {
        Some(shape) => past.has_counts(plan, number, blocks, shape),
        None => false,
    }
}

/// e: there are as many blocks as the first L1-current tells, and no others.
pub fn blocks_fault(
    plan: &Plan,
    number: u64,
    l1: &HeldL1,
    blocks: &HeldBlocks,
    past: &HeldPast,
) -> Option<MuteCause>
    requires rows { length l1.now.dynamic.plps ≡ length plan.now.plps }
    requires open { IsOpenFor blocks.now (length plan.now.plps) }
    requires sized { AreSized plan.now past.now }
    ensures { (before : List Numbered) (t : Tally) → HoldsPast plan.now past.now before → IsAbove before number
        → HoldsL1 plan.now l1.now t.l1 t.alike → HoldsCounts plan.now blocks.now t
        → result ≡ tally_blocks plan.now before number t }
{
    if has_blocks(plan, number, l1, blocks, past) && blocks.is_known() {
        return None;
    }
    Some(MuteCause::PacketMissing)
}

// Whether the shape that the first L1-current tells has one.
fn has_map(plan: &Plan, l1: &HeldL1) -> bool
    requires rows { length l1.now.dynamic.plps ≡ length plan.now.plps }
    ensures told { (t : Tally) → HoldsL1 plan.now l1.now t.l1 t.alike
        → result ≡ has_map plan.now (tally_shape plan.now t) }
    ensures shape { result ≡ has_map plan.now (shape_told l1.now) }
{
    match l1.shape() {
        Some(shape) => map_passes(plan, shape),
        None => false,
    }
}

/// f: the cells that the first L1-current asks for stand apart, in the frame.
pub fn map_fault(plan: &Plan, l1: &HeldL1) -> Option<MuteCause>
    requires rows { length l1.now.dynamic.plps ≡ length plan.now.plps }
    ensures cause { (t : Tally) → HoldsL1 plan.now l1.now t.l1 t.alike → result ≡ tally_map plan.now t }
    ensures map { IsNone result → has_map plan.now (shape_told l1.now) ≡ true }
{
    if has_map(plan, l1) {
        return None;
    }
    Some(MuteCause::MapRefused)
}

/// The cause of the first test that fails.
#[tactic(auto, unfolding(frame_groups::specs::Tally::tally_fault))]
pub fn first_fault(
    plan: &Plan,
    number: u64,
    stamps: HeldStamps,
    l1: &HeldL1,
    blocks: &HeldBlocks,
    past: &HeldPast,
) -> Option<MuteCause>
    requires small { number < 2 ^ 32 }
    requires chunks { blocks.now.chunks ≡ pool_chunks plan.now }
    requires rows { length l1.now.dynamic.plps ≡ length plan.now.plps }
    requires open { IsOpenFor blocks.now (length plan.now.plps) }
    requires sized { AreSized plan.now past.now }
    ensures cause { (before : List Numbered) (t : Tally) → HoldsPast plan.now past.now before → IsAbove before number
        → HoldsStamps stamps t → HoldsL1 plan.now l1.now t.l1 t.alike → HoldsCounts plan.now blocks.now t
        → result ≡ tally_fault plan.now before number t }
    ensures room { IsNone result → blocks.now.need ≤ blocks.now.chunks }
    ensures map { IsNone result → has_map plan.now (shape_told l1.now) ≡ true }
{
    if let Some(cause) = pool_fault(plan, number, blocks, past) {
        return Some(cause);
    }
    if let Some(cause) = missing_fault(plan, number, l1, stamps) {
        return Some(cause);
    }
    if let Some(cause) = l1_fault(plan, number, l1) {
        return Some(cause);
    }
    if let Some(cause) = time_fault(plan, number, stamps) {
        return Some(cause);
    }
    if let Some(cause) = blocks_fault(plan, number, l1, blocks, past) {
        return Some(cause);
    }
    map_fault(plan, l1)
}
