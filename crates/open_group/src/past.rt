// What is held of the groups before: those in which interleaving frames began.
ghost use Rattle.std.specs.Prelude.{◌≡◌, ◌<◌, length};
ghost use Rattle.frame_groups.specs.Begun.{is_begin};

use crate::blocks::HeldBlocks;
use bit_slice::OutOfMemory;
use frame_groups::MuteCause;
use linked_pool::group_chunks;
use plp_config::{Plan, interleaving_law};
use scheduler::Shape;
use std::alloc::Global;

/// Of a PLP, the last group in which an interleaving frame of it began: the number of its frame, and how many blocks of
/// the PLP it has, of any length and of the right one.
#[derive(Clone, Copy, Debug, PartialEq, Eq)]
pub struct Begun {
    pub number: u64,
    pub blocks: u64,
    pub right: u64,
}

/// Of the frames with a frame_idx, the last one that has a group: the number of its superframe, and the chunks that its
/// blocks need.
#[derive(Clone, Copy, Debug, PartialEq, Eq)]
pub struct Need {
    pub superframe: u64,
    pub chunks: u64,
}

/// What is held of the groups before the one under way. Its numbers of blocks and chunks stand still at the greatest
/// that they can be.
#[derive(Drop)]
pub struct HeldPast {
    // Of each PLP.
    begun: Vec<Begun>,
    // Of each frame of a superframe.
    needs: Vec<Need>,
}

// Whether an interleaving frame that a frame carries begins in another one.
fn is_begin(plan: &Plan, number: u64, begin: u64) -> bool
    ensures { result ≡ is_begin plan.now number begin }
{
    for plp in 0..plan.config().plps.len() {
        if plan.begin_of(plp, number) == begin {
            return true;
        }
    }
    false
}

impl HeldPast {
    ghost use Rattle.std.specs.Prelude.{◌≡◌, ◌≢◌, ◌+◌, ◌*◌, ◌/◌, ◌%◌, ◌<◌, ◌∷◌, ℕ, List, [], Some, length, IfOk};
    ghost use Rattle.std.specs.List.{range_with_len};
    ghost use Rattle.frame_groups.specs.Groups.{Group};
    ghost use Rattle.frame_groups.specs.Modulated.{Numbered};
    ghost use Rattle.frame_groups.specs.Sequenced.{IsAbove};
    ghost use Rattle.frame_groups.specs.Tally.{Tally, tally, tally_counts};
    ghost use Rattle.frame_groups.specs.Tests.{capped, has_count, begun_test, first_failure};
    ghost use Rattle.open_group.specs.HoldsBlocks.{IsOpenFor, HoldsCounts};
    ghost use Rattle.open_group.specs.HoldsPast.{begun_at, need_at, told_begun, noted, AreSized, HoldsPast};

    /// Takes the memory for a plan. No group was before.
    pub fn open(alloc: Global, plan: &Plan) -> Result<HeldPast, OutOfMemory>
        ensures sized { IfOk result (AreSized plan.now) }
        ensures none { IfOk result (λ held. HoldsPast plan.now held []) }
    {
        let config = plan.config();
        let none = Begun {
            number: 0,
            blocks: 0,
            right: 0,
        };
        let nothing = Need {
            superframe: 0,
            chunks: 0,
        };
        Ok(HeldPast {
            begun: vec![in alloc; none; config.plps.len()]?,
            needs: vec![in alloc; nothing; config.frames as usize]?,
        })
    }

    // Notes a group for a PLP, if an interleaving frame of it begins there.
    fn note_plp(&mut self, plan: &Plan, plp: usize, number: u64, blocks: &HeldBlocks)
        requires inside { plp < length plan.now.plps }
        requires sized { AreSized plan.now self.old }
        requires open { IsOpenFor blocks.now (length plan.now.plps) }
        ensures own { begun_at self.new plp ≡ noted plan.now number blocks.now plp (begun_at self.old plp) }
        ensures others { (k : ℕ) → k ≢ plp → begun_at self.new k ≡ begun_at self.old k }
        ensures needs { self.new.needs ≡ self.old.needs }
        ensures sized { AreSized plan.now self.new }
    {
        if plan.is_first(plp, number) {
            self.begun[plp] = Begun {
                number,
                blocks: blocks.count_of(plp),
                right: blocks.right_of(plp),
            };
        }
    }

    // And for all PLPs.
    fn note_plps(&mut self, plan: &Plan, number: u64, blocks: &HeldBlocks)
        requires sized { AreSized plan.now self.old }
        requires open { IsOpenFor blocks.now (length plan.now.plps) }
        ensures begun { (plp : ℕ) → plp < length plan.now.plps
            → begun_at self.new plp ≡ noted plan.now number blocks.now plp (begun_at self.old plp) }
        ensures needs { self.new.needs ≡ self.old.needs }
        ensures sized { AreSized plan.now self.new }
    {
        for plp in 0..plan.config().plps.len() {
            self.note_plp(plan, plp, number, blocks);
        }
    }

    // Notes what the blocks of a group need, for the frames with its frame_idx.
    fn note_need(&mut self, place: usize, need: Need)
        requires { place < length self.old.needs.items }
        ensures own { need_at self.new place ≡ need }
        ensures others { (k : ℕ) → k ≢ place → need_at self.new k ≡ need_at self.old k }
        ensures begun { self.new.begun ≡ self.old.begun }
        ensures len { length self.new.needs.items ≡ length self.old.needs.items }
    {
        self.needs[place] = need;
    }

    /// A group with these blocks has a number, and no more of it comes.
    pub fn note(&mut self, plan: &Plan, number: u64, blocks: &HeldBlocks)
        requires sized { AreSized plan.now self.old }
        requires open { IsOpenFor blocks.now (length plan.now.plps) }
        ensures holds { (past : List Numbered) (g : Group) → HoldsPast plan.now self.old past → IsAbove past number
            → HoldsCounts plan.now blocks.now (tally plan.now g.packets)
            → HoldsPast plan.now self.new (record { number = number; group = g } ∷ past) }
        ensures sized { AreSized plan.now self.new }
    {
        interleaving_law();
        plan.rules_law();
        let frames = u64::from(plan.config().frames);
        let (_, chunks) = blocks.chunks();
        self.note_plps(plan, number, blocks);
        let need = Need {
            superframe: number / frames,
            chunks,
        };
        self.note_need((number % frames) as usize, need);
    }

    // Whether the group of the frame in which an interleaving frame begins has so many blocks of its PLP, each of its
    // length.
    fn has_begun(&self, plp: usize, begin: u64, told: u16) -> bool
        requires { plp < length self.now.begun.items }
        ensures { result ≡ told_begun (begun_at self.now plp) begin told }
    {
        let begun = self.begun[plp];
        if begun.number != begin {
            return told == 0;
        }
        begun.blocks == u64::from(told) && begun.right == u64::from(told)
    }

    // Whether a PLP has as many blocks as told, with so many in the group of a frame.
    fn has_count(&self, plan: &Plan, number: u64, plp: usize, own: u64, told: u16) -> bool
        requires inside { plp < length plan.now.plps }
        requires sized { AreSized plan.now self.now }
        ensures { (past : List Numbered) (count : ℕ) → HoldsPast plan.now self.now past → IsAbove past number
            → own ≡ capped count → result ≡ has_count plan.now past number plp count told }
    {
        if plan.is_first(plp, number) {
            return own == u64::from(told);
        }
        own == 0 && self.has_begun(plp, plan.begin_of(plp, number), told)
    }

    /// Whether each PLP has as many blocks as a shape tells.
    pub fn has_counts(&self, plan: &Plan, number: u64, blocks: &HeldBlocks, shape: &Shape) -> bool
        requires sized { AreSized plan.now self.now }
        requires open { IsOpenFor blocks.now (length plan.now.plps) }
        requires shape { length shape.now.counts ≡ length plan.now.plps }
        ensures { (past : List Numbered) (t : Tally) → HoldsPast plan.now self.now past → IsAbove past number
            → HoldsCounts plan.now blocks.now t → result ≡ tally_counts plan.now past number t (Some shape.now) }
    {
        for plp in 0..shape.len() {
            if !self.has_count(plan, number, plp, blocks.count_of(plp), shape.count(plp)) {
                return false;
            }
        }
        true
    }

    fn need(&self, place: usize) -> Need
        requires { place < length self.now.needs.items }
        ensures { result ≡ need_at self.now place }
    {
        self.needs[place]
    }

    // Whether the blocks of the group of a frame have room, if an interleaving frame begins there that frame `number`
    // carries.
    fn fault_at(&self, plan: &Plan, number: u64, place: usize) -> Option<MuteCause>
        requires inside { place < number % plan.now.frames }
        requires sized { AreSized plan.now self.now }
        ensures { (past : List Numbered) → HoldsPast plan.now self.now past → IsAbove past number
            → result ≡ begun_test plan.now past number (number / plan.now.frames * plan.now.frames + place) }
    {
        plan.rules_law();
        let chunks = u64::from(group_chunks(plan));
        let frames = u64::from(plan.config().frames);
        let superframe = number / frames;
        let need = self.need(place);
        if need.superframe != superframe {
            return None;
        }
        if need.chunks <= chunks {
            return None;
        }
        if !is_begin(plan, number, superframe * frames + place as u64) {
            return None;
        }
        Some(MuteCause::PoolFull {
            need: need.chunks,
            spare: chunks,
        })
    }

    /// The first of the groups whose blocks lack room, of those in which an interleaving frame begins that a frame
    /// carries.
    pub fn fault(&self, plan: &Plan, number: u64) -> Option<MuteCause>
        requires { AreSized plan.now self.now }
        ensures { (past : List Numbered) → HoldsPast plan.now self.now past → IsAbove past number
            → result ≡ first_failure (begun_test plan.now past number) (range_with_len 0 number) }
    {
        interleaving_law();
        plan.rules_law();
        let frames = u64::from(plan.config().frames);
        for place in 0..(number % frames) as usize {
            let fault = self.fault_at(plan, number, place);
            if fault.is_some() {
                return fault;
            }
        }
        None
    }
}
