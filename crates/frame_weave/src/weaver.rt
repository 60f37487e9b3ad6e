// What weaves a frame.
ghost use Rattle.std.specs.Prelude.{◌≡◌, ◌<◌, ◌+◌, ◌++◌, ◌&&◌, ◌^◌, List, Some, true, length, option_map};
ghost use Rattle.std.specs.Bool.{beq};
ghost use Rattle.std.specs.Cmp.Lexicographic.{pointwise};
ghost use Rattle.std.specs.Option.{option_copied};
ghost use Rattle.frame_groups.specs.Carried.{L1Parts};
ghost use Rattle.frame_groups.specs.Tests.{pool_chunks};
ghost use Rattle.open_group.specs.Holds.{Holds};
ghost use Rattle.open_group.specs.Parts.{parts_of};
ghost use Rattle.open_group.specs.Signals.{first_parts, signals};
ghost use Rattle.frame_groups.specs.Groups.{Group};
ghost use Rattle.frame_groups.specs.Modulated.{Numbered};
ghost use Rattle.t2mi_packet.specs.declared.packet.Body.{Body};
ghost use Rattle.frame_weave.specs.Made.{IsAlone, HoldsMade};
ghost use Rattle.frame_weave.specs.Slots.{IsLaid};
ghost use Rattle.frame_weave.specs.Woven.{counts_by, l1_bodies};

use crate::blocks::push_blocks;
use crate::group::MarkedGroup;
use crate::layout::Layout;
use crate::made::MadeGroup;
use crate::placing::place_blocks;
use crate::slots::Slots;
use bit_slice::{BitSlice, OutOfMemory, same_bits};
use frame_groups::parts_law;
use l1_signal::{conf_law, conf_len, dyn_law, dyn_len, pre_law};
use open_group::{HeldParts, PooledGroup};
use plp_config::Plan;
use std::alloc::Global;

/// Weaves a frame of what several groups have of it. They are looked at one after another, and then placed in the same
/// order. All memory is taken in `open`.
#[derive(Drop)]
pub struct Weaver<'p> {
    plan: &'p Plan,
    number: u64,
    // The L1 signalling was taken of a group that was looked at; and whether the other groups that have some tell the
    // same.
    is_taken: bool,
    agree: bool,
    // packet_count of its L1-current.
    origin: u8,
    layout: Layout,
    slots: Slots,
    made: MadeGroup<'p>,
    ghost same: { made.plan.now ≡ plan.now },
    ghost early: { number < 2 ^ 32 },
    ghost starts: { length layout.starts.items ≡ length plan.now.plps + 1 },
    ghost places: { slots.places ≡ pool_chunks plan.now },
}

fn is_same(a: &BitSlice<'_>, b: &BitSlice<'_>) -> bool
    ensures { result ≡ pointwise beq a.now b.now }
{
    same_bits(a, b)
}

// Whether two L1-currents have the same dynamic part.
fn same_dynamic(a: Option<&HeldParts>, b: Option<&HeldParts>) -> bool
    ensures { (x y : L1Parts) → option_map parts_of (option_copied a.entry) ≡ Some x
        → option_map parts_of (option_copied b.entry) ≡ Some y
        → result ≡ pointwise beq x.dynamic y.dynamic }
{
    let Some(a) = a else {
        return false;
    };
    let Some(b) = b else {
        return false;
    };
    is_same(&a.dynamic(), &b.dynamic())
}

fn both(a: bool, b: bool) -> bool
    ensures { result ≡ (a && b) }
{
    a && b
}

// Lays the places of the frame that a group tells, if it tells one.
fn lay_by(layout: &mut Layout, plan: &Plan, number: u64, group: &PooledGroup<'_>)
    requires sized { length layout.old.starts.items ≡ length plan.now.plps + 1 }
    requires intact { group.now.intact ≡ true }
    requires network { group.now.network ≡ plan.now }
    ensures laid { (past : List Numbered) (h : Group) → Holds group.now past (Some h)
        → signals plan.now number h.packets ≡ true → IsLaid plan.now (counts_by plan.now number h) layout.new }
    ensures sized { length layout.new.starts.items ≡ length layout.old.starts.items }
{
    let Some(shape) = group.shape() else {
        return;
    };
    layout.lay(plan, number, shape);
}

// Puts the L1-current of a group into the one that is made.
fn push_front(made: &mut MadeGroup<'_>, plan: &Plan, number: u64, group: &PooledGroup<'_>)
    requires intact { group.now.intact ≡ true }
    requires same { made.old.plan.now ≡ plan.now }
    ensures holds { (past : List Numbered) (h : Group) (bodies : List Body) → Holds group.now past (Some h)
        → signals made.old.plan.now number h.packets ≡ true
        → HoldsMade made.old.plan.now number made.old bodies → HoldsMade made.old.plan.now number made.new
        (bodies ++ l1_bodies made.old.plan.now number (first_parts h.packets)) }
    ensures alone { IsAlone made.old.group → IsAlone made.new.group }
    ensures plan { made.new.plan.now ≡ made.old.plan.now }
{
    parts_law();
    pre_law();
    conf_law();
    dyn_law();
    plan.rules_law();
    let plps = plan.config().plps.len();
    let _conf = conf_len(plps);
    let _dynamic = dyn_len(plps);
    let Some(parts) = group.signalling() else {
        return;
    };
    made.push_l1(number, parts);
}

impl<'p> Weaver<'p> {
    ghost use Rattle.std.specs.Prelude.{◌≡◌, ◌<◌, ◌++◌, ◌∷◌, ◌^◌, ◌&&◌, [], ℕ, true, List, Some, IfOk, is_some, length};
    ghost use Rattle.std.specs.Prelude.{nat_lt, slice_index_or};
    ghost use Rattle.std.specs.List.{list_all, range_with_len};
    ghost use Rattle.std.specs.Bool.{beq};
    ghost use Rattle.std.specs.Cmp.Lexicographic.{pointwise};
    ghost use Rattle.frame_groups.specs.Carried.{L1Parts};
    ghost use Rattle.linked_pool.specs.Pool.{list_at};
    ghost use Rattle.frame_groups.specs.Groups.{Group};
    ghost use Rattle.frame_groups.specs.Modulated.{Numbered};
    ghost use Rattle.open_group.specs.Holds.{Holds};
    ghost use Rattle.open_group.specs.Signals.{first_parts, signals, fits_pool};
    ghost use Rattle.frame_weave.specs.Holds.{HoldsMarked};
    ghost use Rattle.frame_weave.specs.Made.{HoldsMade};
    ghost use Rattle.frame_weave.specs.Weaves.{IsOwn, Signalled, Weaves, state_of};
    ghost use Rattle.frame_weave.specs.Woven.{stamp_bodies, woven};

    /// Takes the memory for a plan. Nothing is woven yet.
    pub fn open(alloc: Global, plan: &'p Plan) -> Result<Weaver<'p>, OutOfMemory>
        ensures own { IfOk result IsOwn }
        ensures plan { IfOk result (λ weaver. weaver.plan.now ≡ plan.now) }
    {
        Ok(Weaver {
            plan,
            number: 0,
            is_taken: false,
            agree: true,
            origin: 0,
            layout: Layout::open(alloc, plan)?,
            slots: Slots::open(alloc, plan)?,
            made: MadeGroup::open(alloc, plan)?,
        })
    }

    /// Begins with a frame. It looked at no group yet, and placed none.
    pub fn begin(&mut self, number: u64)
        requires { number < 2 ^ 32 }
        ensures weaves { IsOwn self.old → Weaves self.new number [] [] }
        ensures own { IsOwn self.old → IsOwn self.new }
        ensures plan { self.new.plan.now ≡ self.old.plan.now }
    {
        self.number = number;
        self.is_taken = false;
        self.agree = true;
        self.made.begin(number);
        self.slots.clear();
    }

    // Compares the dynamic part of a group with the one that was taken.
    fn compare(&mut self, group: &PooledGroup<'_>)
        ensures agree { (past : List Numbered) (t h : Group) (x y : L1Parts) → group.now.intact ≡ true
            → Holds self.old.made.group [] (Some t) → Holds group.now past (Some h) → first_parts t.packets ≡ Some x
            → first_parts h.packets ≡ Some y
            → self.new.agree ≡ (self.old.agree && pointwise beq x.dynamic y.dynamic) }
        ensures rest { state_of self.new ≡ record (state_of self.old) { agree = self.new.agree } }
        ensures same { (self.new.plan.now ≡ self.old.plan.now) × (self.new.number ≡ self.old.number) }
    {
        let is_same = same_dynamic(self.made.group().signalling(), group.signalling());
        self.agree = both(self.agree, is_same);
    }

    // Takes the L1 signalling of a group.
    fn take(&mut self, group: &MarkedGroup<'_>)
        requires intact { group.now.group.intact ≡ true }
        requires network { group.now.group.network ≡ self.old.plan.now }
        ensures takes { (past : List Numbered) (h : Group) → HoldsMarked group.now past (Some h)
            → signals self.old.plan.now self.old.number h.packets ≡ true
            → HoldsMade self.old.plan.now self.old.number self.old.made (stamp_bodies self.old.plan.now self.old.number)
            → Signalled self.old.plan.now (state_of self.new) self.old.number h }
        ensures own { IsOwn self.old → IsOwn self.new }
        ensures rest { (self.new.agree ≡ self.old.agree) × (self.new.slots ≡ self.old.slots) }
        ensures same { (self.new.plan.now ≡ self.old.plan.now) × (self.new.number ≡ self.old.number) }
    {
        self.is_taken = true;
        self.origin = group.origin().unwrap_or(0);
        lay_by(&mut self.layout, self.plan, self.number, group.group());
        push_front(&mut self.made, self.plan, self.number, group.group());
    }

    /// Looks at a group: whether it has L1 signalling of the frame, and which.
    pub fn look(&mut self, group: &MarkedGroup<'_>)
        requires intact { group.now.group.intact ≡ true }
        requires network { group.now.group.network ≡ self.old.plan.now }
        ensures weaves { (past : List Numbered) (h : Group) (n : ℕ) (looked : List Group)
            → HoldsMarked group.now past (Some h)
            → Weaves self.old n looked [] → Weaves self.new n (looked ++ h ∷ []) [] }
        ensures own { IsOwn self.old → IsOwn self.new }
        ensures plan { self.new.plan.now ≡ self.old.plan.now }
    {
        if !group.group().signals(self.number) {
            return;
        }
        if self.is_taken {
            self.compare(group.group());
            return;
        }
        self.take(group);
    }

    // Whether the blocks of a group can be placed.
    fn can_place(&self, group: &PooledGroup<'_>) -> bool
        ensures { (past : List Numbered) (h : Group) → Holds group.now past (Some h)
            → result ≡ (self.now.is_taken && self.now.layout.is_room && fits_pool group.now.network h.packets) }
    {
        self.is_taken && self.layout.is_room() && group.fits()
    }

    /// Places the blocks of a group that was looked at.
    pub fn place(&mut self, group: &MarkedGroup<'_>)
        requires intact { group.now.group.intact ≡ true }
        requires network { group.now.group.network ≡ self.old.plan.now }
        ensures weaves { (past : List Numbered) (h : Group) (n : ℕ) (looked placed : List Group)
            → HoldsMarked group.now past (Some h) → Weaves self.old n looked placed
            → Weaves self.new n looked (placed ++ h ∷ []) }
        ensures own { IsOwn self.old → IsOwn self.new }
        ensures plan { self.new.plan.now ≡ self.old.plan.now }
    {
        if !self.can_place(group.group()) {
            return;
        }
        let origin = group.origin().unwrap_or(self.origin);
        let _fits = group.group().fits();
        place_blocks(
            &self.layout,
            &mut self.slots,
            group.group().blocks(),
            u64::from(origin) + 1,
            group.marks(),
        );
    }

    // Whether all groups tell the same, and a block stands at each place.
    fn is_whole(&self) -> bool
        ensures { result ≡ (self.now.is_taken && self.now.agree && self.now.layout.is_room && self.now.slots.alike
            && list_all (λ place. nat_lt 0 (length (list_at self.now.slots.pool place)))
            (range_with_len 0 (slice_index_or self.now.layout.starts.items (length self.now.plan.now.plps) 0))) }
    {
        if !self.is_taken || !self.agree || !self.layout.is_room() || !self.slots.is_alike() {
            return false;
        }
        self.slots
            .is_full(self.layout.start(self.plan.config().plps.len()))
    }

    /// Makes the group of those that were looked at and placed, if they make one.
    pub fn finish(&mut self) -> bool
        ensures told { (n : ℕ) (gs : List Group) → Weaves self.old n gs gs
            → result ≡ is_some (woven self.old.plan.now n gs) }
        ensures group { (n : ℕ) (gs : List Group) (g : Group) → Weaves self.old n gs gs
            → woven self.old.plan.now n gs ≡ Some g
            → Holds self.new.made.group [] (Some g) }
        ensures own { IsOwn self.old → IsOwn self.new }
        ensures plan { self.new.plan.now ≡ self.old.plan.now }
    {
        if !self.is_whole() {
            return false;
        }
        push_blocks(
            &mut self.made,
            self.plan,
            self.number,
            &self.layout,
            &self.slots,
        );
        true
    }

    /// The group that was made.
    pub fn group(&self) -> &PooledGroup<'p>
        ensures value { result.now ≡ self.now.made.group }
        ensures intact { result.now.intact ≡ true }
        ensures network { result.now.network ≡ self.now.plan.now }
    {
        self.made.group()
    }
}
