// Comparing what two streams have of a frame.
ghost use Rattle.std.specs.Prelude.{◌≡◌, ◌<◌, ◌≤◌, ◌+◌, ℕ, true, false, List, [], bytes_eq, length, slice_index_or};
ghost use Rattle.std.specs.Prelude.{Option, Some, None, IfSome};
ghost use Rattle.std.specs.Option.{option_copied};
ghost use Rattle.frame_groups.specs.Modulated.{Numbered};
ghost use Rattle.linked_pool.specs.Pool.{list_at};
ghost use Rattle.compare_run.specs.Comparing.{same_bits as same_by, first_other as first_other_by};
ghost use Rattle.compare_run.specs.Comparing.{block_place as block_place_by};
ghost use Rattle.compare_run.specs.Comparing.{place_answer as answer_at, sides_answer, other_by};
ghost use Rattle.compare_run.specs.TallyStandsFor.{lists_in, blocks_in, Brings, NothingBetween, IsOther};

use crate::answer::{Answer, Other, Place, Side};
use crate::lines::{LONGEST_LINE, plp_line};
use bit_slice::{BitSlice, OutOfMemory, same_bits};
use file_run::Line;
use linked_pool::{BlockRef, Pool};
use plp_config::{Plan, interleaving_law};
use std::alloc::Global;

/// Of each PLP, the first baseband frame of its interleaving frame under way that two streams do not have the same.
#[derive(Drop)]
pub struct Carried {
    others: Vec<Option<Other>>,
}

// Whether two runs of bits are the same.
fn same(a: &BitSlice<'_>, b: &BitSlice<'_>) -> bool
    ensures { result ≡ same_by a.now b.now }
{
    same_bits(a, b)
}

// Whether two blocks are the same. The pieces of blocks of one length have the same lengths.
fn same_block(a: &BlockRef<'_>, b: &BlockRef<'_>) -> bool
    ensures { result ≡ bytes_eq a.now b.now }
{
    if a.len() != b.len() {
        return false;
    }
    let mut left = a.pieces();
    let mut right = b.pieces();
    while let Some(piece) = left.next() {
        let Some(other) = right.next() else {
            return false;
        };
        if piece != other {
            return false;
        }
    }
    true
}

// A place at which one list ends.
fn end_at(number: u32) -> Other
    ensures { result ≡ other_by number true }
{
    Other {
        number,
        is_end: true,
    }
}

// A place at which both lists have a block.
fn block_at(number: u32) -> Other
    ensures { result ≡ other_by number false }
{
    Other {
        number,
        is_end: false,
    }
}

// The first place at which a list does not have the same block in two pools.
fn first_between(a: &Pool, b: &Pool, list: u32) -> Option<Other>
    requires first { list < length a.now.lists }
    requires second { list < length b.now.lists }
    ensures { result ≡ first_other_by (list_at a.now list) (list_at b.now list) }
{
    let mut blocks = a.blocks(list, 0);
    let mut others = b.blocks(list, 0);
    for place in 0..a.count(list) {
        let Some(block) = blocks.next() else {
            return None;
        };
        let Some(other) = others.next() else {
            return Some(end_at(place));
        };
        if !same_block(&block, &other) {
            return Some(block_at(place));
        }
    }
    if others.next().is_some() {
        return Some(end_at(a.count(list)));
    }
    None
}

// The first place of a list, if it has a block.
fn first_place(pool: &Pool, list: u32) -> Option<Other>
    requires { list < length pool.now.lists }
    ensures { result ≡ first_other_by [] (list_at pool.now list) }
{
    if pool.count(list) > 0 {
        return Some(end_at(0));
    }
    None
}

// The first place at which a list does not have the same block in both; without a pool it has none.
fn first_other(a: Option<&Pool>, b: Option<&Pool>, list: u32) -> Option<Other>
    requires first { IfSome a (λ pool. list < length pool.now.lists) }
    requires second { IfSome b (λ pool. list < length pool.now.lists) }
    ensures { result ≡ first_other_by (blocks_in (lists_in (option_copied a.entry)) list)
        (blocks_in (lists_in (option_copied b.entry)) list) }
{
    match (a, b) {
        (Some(a), Some(b)) => first_between(a, b, list),
        (Some(a), None) => first_place(a, list),
        (None, Some(b)) => first_place(b, list),
        (None, None) => None,
    }
}

// What is noted for a PLP with frame `number`. If its interleaving frame began in a frame that was noted, it stays; if
// it began in one behind those, no packet of that frame came, and both have no block.
fn noted(
    before: Option<Other>,
    plan: &Plan,
    plp: usize,
    next: u64,
    number: u64,
    a: Option<&Pool>,
    b: Option<&Pool>,
) -> Option<Other>
    requires inside { plp < length plan.now.plps }
    requires forward { next ≤ number }
    requires first { IfSome a (λ pool. length pool.now.lists ≡ length plan.now.plps) }
    requires second { IfSome b (λ pool. length pool.now.lists ≡ length plan.now.plps) }
    ensures { (ga gb : List Numbered) → IsOther plan.now plp next ga gb before
        → Brings plan.now ga number (lists_in (option_copied a.entry))
        → Brings plan.now gb number (lists_in (option_copied b.entry))
        → NothingBetween ga next number → NothingBetween gb next number
        → IsOther plan.now plp (number + 1) ga gb result }
{
    interleaving_law();
    plan.rules_law();
    let begin = plan.begin_of(plp, number);
    if begin == number {
        return first_other(a, b, plp as u32);
    }
    if begin >= next {
        return None;
    }
    before
}

// The first block that differs, by what is noted of the PLPs.
fn block_place(others: &[Option<Other>], plan: &Plan) -> Option<Place>
    requires { length others.now ≡ length plan.now.plps }
    ensures { result ≡ block_place_by plan.now (λ plp. slice_index_or others.now plp None) }
{
    for plp in 0..others.len() {
        if let Some(other) = others[plp] {
            return Some(Place::Block {
                plp_id: plan.plp_id(plp),
                number: other.number,
            });
        }
    }
    None
}

impl Carried {
    ghost use Rattle.std.specs.Prelude.{◌≡◌, ◌<◌, ◌≤◌, ◌+◌, ℕ, List, length, IfOk, IfSome};
    ghost use Rattle.std.specs.Option.{option_copied};
    ghost use Rattle.frame_groups.specs.Modulated.{Numbered};
    ghost use Rattle.feed_merge.specs.Groups.{CarriesRoom};
    ghost use Rattle.compare_run.specs.Comparing.{dynamic_at, place_of};
    ghost use Rattle.compare_run.specs.Lines.{plp_text};
    ghost use Rattle.compare_run.specs.declared.lines.TheConstants.{LONGEST_LINE};
    ghost use Rattle.compare_run.specs.TallyStandsFor.{lists_in, Brings, NothingBetween, CarriedStandsFor};
    ghost use Rattle.compare_run.specs.TallyStandsFor.{plps_in, other_in};

    /// Takes the memory for a plan. No frame was noted.
    pub fn open(alloc: Global, plan: &Plan) -> Result<Carried, OutOfMemory>
        ensures stands { IfOk result (λ x. (ga gb : List Numbered) → CarriedStandsFor x plan.now 0 ga gb) }
        ensures plps { IfOk result (λ x. plps_in x ≡ length plan.now.plps) }
    {
        let none: Option<Other> = None;
        Ok(Carried {
            others: vec![in alloc; none; plan.config().plps.len()]?,
        })
    }

    /// Notes frame `number`: the blocks that came of it in both streams, a list for each PLP. `None` if no packet of it
    /// came, or if they have no room. The frames below `next` were noted, and of those between no packet came.
    pub fn note(&mut self, plan: &Plan, next: u64, number: u64, a: Option<&Pool>, b: Option<&Pool>)
        requires plps { plps_in self.old ≡ length plan.now.plps }
        requires forward { next ≤ number }
        requires first { IfSome a (λ pool. length pool.now.lists ≡ length plan.now.plps) }
        requires second { IfSome b (λ pool. length pool.now.lists ≡ length plan.now.plps) }
        ensures stands { (ga gb : List Numbered) → CarriedStandsFor self.old plan.now next ga gb
            → Brings plan.now ga number (lists_in (option_copied a.entry))
            → Brings plan.now gb number (lists_in (option_copied b.entry))
            → NothingBetween ga next number → NothingBetween gb next number
            → CarriedStandsFor self.new plan.now (number + 1) ga gb }
        ensures plps { plps_in self.new ≡ plps_in self.old }
    {
        for plp in 0..plan.config().plps.len() {
            self.others[plp] = noted(self.others[plp], plan, plp, next, number, a, b);
        }
    }

    /// Where the frame that was noted last differs first, by the dynamic parts of its L1 in both streams.
    pub fn place(&self, plan: &Plan, a: &BitSlice<'_>, b: &BitSlice<'_>) -> Option<Place>
        requires plps { plps_in self.now ≡ length plan.now.plps }
        ensures { (n : ℕ) (ga gb : List Numbered) → CarriedStandsFor self.now plan.now (n + 1) ga gb
            → CarriesRoom plan.now ga n
            → CarriesRoom plan.now gb n → a.now ≡ dynamic_at ga n → b.now ≡ dynamic_at gb n
            → result ≡ place_of plan.now n ga gb }
    {
        if !same(a, b) {
            return Some(Place::L1);
        }
        block_place(self.others.as_slice(), plan)
    }

    /// How many PLPs there are.
    pub fn plps(&self) -> usize
        ensures { result ≡ plps_in self.now }
    {
        self.others.len()
    }

    /// The line of a PLP, if the frame that was noted last differs there, and else nothing.
    pub fn plp_line(&self, plan: &Plan, frame: u64, plp: usize) -> Line
        requires plps { plps_in self.now ≡ length plan.now.plps }
        requires inside { plp < plps_in self.now }
        ensures text { result ≡ plp_text plan.now frame plp (other_in self.now plp) }
        ensures len { length result ≤ LONGEST_LINE }
    {
        match self.others[plp] {
            Some(other) => plp_line(frame, plan.plp_id(plp), other),
            None => Line::new(),
        }
    }
}

// What two whole frames are to each other.
fn place_answer(place: Option<Place>) -> Answer
    ensures { result ≡ answer_at place }
{
    match place {
        Some(at) => Answer::Differs { at },
        None => Answer::Same,
    }
}

/// What two sides of a frame are to each other, by where it differs first if both are whole. `None` if it is in
/// neither.
pub fn answer_by(a: Side, b: Side, place: Option<Place>) -> Option<Answer>
    ensures { result ≡ sides_answer a b (answer_at place) }
{
    match (a, b) {
        (Side::Absent, Side::Absent) => None,
        (Side::Absent, _) => Some(Answer::OnlyB),
        (_, Side::Absent) => Some(Answer::OnlyA),
        (Side::Muted, Side::Muted) => Some(Answer::MutedBoth),
        (Side::Muted, Side::Whole) => Some(Answer::MutedA),
        (Side::Whole, Side::Muted) => Some(Answer::MutedB),
        (Side::Whole, Side::Whole) => Some(place_answer(place)),
    }
}
