// A group behind groups that the caller holds, and what it tells of the frame that several groups make.
ghost use Rattle.std.specs.Prelude.{◌≡◌, ◌<◌, ◌^◌, ◌∷◌, List, Option, Some, true, false, is_some, length, option_map};
ghost use Rattle.std.specs.Prelude.{IfSome};
ghost use Rattle.std.specs.Option.{option_copied};
ghost use Rattle.frame_groups.specs.Groups.{Group};
ghost use Rattle.frame_groups.specs.Modulated.{Numbered};
ghost use Rattle.frame_groups.specs.Sequenced.{IsAbove};
ghost use Rattle.frame_groups.specs.Tests.{group_fault, first_shape};
ghost use Rattle.open_group.specs.FrameBytes.{is_frame, has_room};
ghost use Rattle.open_group.specs.Holds.{Holds};
ghost use Rattle.open_group.specs.HoldsPast.{AreSized, HoldsPast};
ghost use Rattle.open_group.specs.Parts.{parts_of};
ghost use Rattle.open_group.specs.Signals.{first_parts, signals, fits_pool};

use crate::faults::first_fault;
use crate::group::PooledGroup;
use crate::parts::HeldParts;
use crate::past::HeldPast;
use frame_groups::{MuteCause, tally_law};
use scheduler::Shape;

impl<'p> PooledGroup<'p> {
    /// Why it is not the frame of a number, behind groups that the caller holds; the number is above theirs.
    pub fn fault_behind(&self, past: &HeldPast, number: u64) -> Option<MuteCause>
        requires intact { self.now.intact ≡ true }
        requires small { number < 2 ^ 32 }
        requires sized { AreSized self.now.network past.now }
        ensures value { (own before : List Numbered) (h : Group) → Holds self.now own (Some h)
            → HoldsPast self.now.network past.now before → IsAbove before number
            → result ≡ group_fault self.now.network before h number }
        ensures frame { is_some result ≡ false → is_frame self.now ≡ true }
    {
        tally_law();
        let plan = self.network.plan();
        first_fault(plan, number, self.stamps, &self.l1, &self.blocks, past)
    }

    /// Its group has a number, among those that the caller holds.
    pub fn note_in(&self, past: &mut HeldPast, number: u64)
        requires sized { AreSized self.now.network past.old }
        ensures holds { (own before : List Numbered) (h : Group) → Holds self.now own (Some h)
            → HoldsPast self.now.network past.old before → IsAbove before number
            → HoldsPast self.now.network past.new (record { number = number; group = h } ∷ before) }
        ensures sized { AreSized self.now.network past.new }
    {
        past.note(self.network.plan(), number, &self.blocks);
    }

    /// The parts of its first L1-current, if there is one.
    pub fn signalling(&self) -> Option<&HeldParts>
        ensures { (past : List Numbered) (h : Group) → self.now.intact ≡ true → Holds self.now past (Some h)
            → option_map parts_of (option_copied result) ≡ first_parts h.packets }
    {
        if !self.l1.is_held() {
            return None;
        }
        Some(self.l1.parts())
    }

    /// Whether this is one of the configuration and of a frame.
    pub fn signals(&self, number: u64) -> bool
        ensures { (past : List Numbered) (h : Group) → self.now.intact ≡ true → Holds self.now past (Some h)
            → result ≡ signals self.now.network number h.packets }
    {
        self.l1.is_held() && self.l1.is_first(self.network.plan(), number)
    }

    /// The shape that it tells, if it reads.
    pub fn shape(&self) -> Option<&Shape>
        ensures value { (past : List Numbered) (h : Group) → self.now.intact ≡ true → Holds self.now past (Some h)
            → option_copied result ≡ first_shape self.now.network h.packets }
        ensures len { IfSome result (λ shape. length shape.now.counts ≡ length self.now.network.plps) }
    {
        self.l1.shape()
    }

    /// Whether its blocks have room that have the length of their PLP.
    pub fn fits(&self) -> bool
        ensures held { result ≡ has_room self.now }
        ensures value { (past : List Numbered) (h : Group) → Holds self.now past (Some h)
            → result ≡ fits_pool self.now.network h.packets }
    {
        let (chunks, need) = self.blocks.chunks();
        need <= chunks
    }
}
