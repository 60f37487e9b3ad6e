// The packets of a frame of which a PLP is replaced.
ghost use Rattle.std.specs.Prelude.{◌≡◌, ◌<◌, ◌≤◌, ◌+◌, ◌^◌, ℕ, [], length, slice_index_or};
ghost use Rattle.plp_config.specs.declared.config.Config.{Config};
ghost use Rattle.frame_writer.specs.Left.{blocks_left};
ghost use Rattle.region_swap.specs.Left.{lists_in, HasLists};

use bit_slice::FixedBits;
use frame_writer::{
    FrameSource, FrameStep, PoolFrame, PoolWalk, first_step, write_block, write_l1_current,
    write_timestamp,
};
use l1_signal::MOST_DYN_BYTES;
use linked_pool::{BlockRef, Pool};
use plp_config::Plan;
use t2mi_packet::LARGEST;

/// A frame that is held, with another dynamic part, and with the blocks of a region in place of those of one PLP. It
/// is lent.
#[derive(Drop)]
pub struct SwappedFrame<'g, 'b> {
    pub frame: &'b PoolFrame<'g>,
    pub dynamic: &'b FixedBits<MOST_DYN_BYTES>,
    // The place of the PLP, the pool whose list at that place has its blocks, and whether they are sent in this frame.
    pub list: u32,
    pub region: &'b Pool,
    pub sends: bool,
}

/// A place among the packets of such a frame: those before it were built.
#[derive(Clone, Copy)]
pub struct SwapPlace {
    number: u64,
    step: FrameStep,
    // The PLP whose block is next, and the place of that block among those of the PLP.
    plp: u32,
    place: u32,
}

// How many blocks of a PLP are sent.
fn count(frame: &SwappedFrame<'_, '_>, plp: u32) -> u32
    requires lists { HasLists frame.now }
    requires plp { plp < length frame.now.frame.now.blocks.now.lists }
    ensures { result ≡ length (slice_index_or (lists_in frame.now) plp []) }
{
    if plp != frame.list {
        return frame.frame.blocks.count(plp);
    }
    if !frame.sends {
        return 0;
    }
    frame.region.count(plp)
}

// The next block, from a place among those of a PLP on: the PLP that has it, and its place there. No PLP has it if all
// are over.
fn next_block(frame: &SwappedFrame<'_, '_>, plp: u32, place: u32, end: u32) -> (u32, u32)
    requires lists { HasLists frame.now }
    requires end { end ≡ length frame.now.frame.now.blocks.now.lists }
    requires order { plp ≤ end }
    ensures inside { result.0 ≤ end }
    ensures same { (c : Config) (frame_idx : ℕ) → blocks_left c frame_idx plp place (lists_in frame.now)
        ≡ blocks_left c frame_idx result.0 result.1 (lists_in frame.now) }
    ensures some { result.0 < end → result.1 < length (slice_index_or (lists_in frame.now) result.0 []) }
    ensures small { result.0 < end → result.1 + 1 < 2 ^ 32 }
{
    let mut at = place;
    for list in plp..end {
        if count(frame, list) > at {
            return (list, at);
        }
        at = 0;
    }
    (end, at)
}

impl SwapPlace {
    ghost use Rattle.std.specs.Prelude.{◌≡◌, ℕ, Bool, List};
    ghost use Rattle.frame_writer.specs.Bodies.{pool_bodies};
    ghost use Rattle.region_swap.specs.Left.{IsOver, left_by};

    /// The place of which nothing is left, whatever the frame is.
    pub fn over() -> SwapPlace
        ensures over { IsOver result }
        ensures number { result.number ≡ 0 }
        ensures plp { result.plp ≡ 0 }
    {
        SwapPlace {
            number: 0,
            step: FrameStep::Over,
            plp: 0,
            place: 0,
        }
    }

    /// The first place of a frame.
    pub fn first(plan: &Plan, number: u64) -> SwapPlace
        ensures left { (pre conf dynamic : List Bool) (lists : List (List (List ℕ)))
            → left_by plan.now result pre conf dynamic lists ≡ pool_bodies plan.now number pre conf dynamic lists }
        ensures number { result.number ≡ number }
        ensures plp { result.plp ≡ 0 }
    {
        SwapPlace {
            number,
            step: first_step(plan, number),
            plp: 0,
            place: 0,
        }
    }
}

/// A place among the packets of a frame, and walks over both pools that have its blocks. So the block behind the last
/// one is found without going over those before it.
#[derive(Drop)]
pub struct SwapSource<'b> {
    pub place: SwapPlace,
    pub own: PoolWalk<'b>,
    pub region: PoolWalk<'b>,
}

impl<'b> SwapSource<'b> {
    ghost use Rattle.std.specs.Prelude.{◌≡◌, ◌<◌, ◌≤◌, [], true, false, length, slice_index_or};
    ghost use Rattle.frame_writer.specs.Builds.{Builds};
    ghost use Rattle.frame_writer.specs.declared.step.FrameStep.TheVariants as step;
    ghost use Rattle.region_swap.specs.Left.{lists_in, left_of, HasLists, HasWalks, CanBuild};

    /// A place among the packets of a frame, with walks over its pools.
    pub fn new(place: SwapPlace, frame: &SwappedFrame<'_, 'b>) -> SwapSource<'b>
        ensures place { result.place ≡ place }
        ensures walks { HasWalks result frame.now }
    {
        SwapSource {
            place,
            own: PoolWalk::new(frame.frame.blocks),
            region: PoolWalk::new(frame.region),
        }
    }

    // The block of a PLP at a place.
    fn block(&mut self, frame: &SwappedFrame<'_, '_>, plp: u32, place: u32) -> BlockRef<'b>
        requires lists { HasLists frame.now }
        requires walks { HasWalks self.old frame.now }
        requires plp { plp < length frame.now.frame.now.blocks.now.lists }
        requires there { place < length (slice_index_or (lists_in frame.now) plp []) }
        ensures block { result ≡ slice_index_or (slice_index_or (lists_in frame.now) plp []) place [] }
        ensures walks { HasWalks self.new frame.now }
        ensures place { self.new.place ≡ self.old.place }
    {
        if plp == frame.list {
            return self.region.block(plp, place).unwrap();
        }
        self.own.block(plp, place).unwrap()
    }

    // Builds the packet of the next block, if there is one.
    fn build_block(
        &mut self,
        frame: &SwappedFrame<'_, '_>,
        plan: &Plan,
        packet_count: u8,
        out: &mut FixedBits<LARGEST>,
    ) -> bool
        requires of { CanBuild self.old frame.now plan.now }
        requires step { self.old.place.step ≡ step.Blocks }
        ensures some { result ≡ true → Builds plan.now self.old.place.number packet_count
            (left_of plan.now self.old.place frame.now)
            (left_of plan.now self.new.place frame.now) out.new }
        ensures none { result ≡ false → left_of plan.now self.old.place frame.now ≡ [] }
        ensures over { result ≡ false → self.new.place.step ≡ step.Over }
        ensures stays { result ≡ false → out.new ≡ out.old }
        ensures number { self.new.place.number ≡ self.old.place.number }
        ensures of { CanBuild self.new frame.now plan.now }
    {
        plan.rules_law();
        let end = plan.config().plps.len() as u32;
        let (plp, place) = next_block(frame, self.place.plp, self.place.place, end);
        if plp >= end {
            self.place.step = FrameStep::Over;
            return false;
        }
        let block = self.block(frame, plp, place);
        write_block(
            out,
            plan,
            packet_count,
            self.place.number,
            plp as usize,
            place == 0,
            &block,
        );
        self.place.plp = plp;
        self.place.place = place + 1;
        true
    }
}

impl<'g, 'b> FrameSource<SwappedFrame<'g, 'b>> for SwapSource<'b> {
    ghost use Rattle.region_swap.specs.Left.{left_of, CanBuild, IsOver};

    ghost number = { λ s. s.place.number };

    ghost left = { λ s f c. left_of c s.place f };

    ghost IsFor = { λ s f c. CanBuild s f c };

    ghost IsOver = { λ s. IsOver s.place };

    ghost kept = { λ _ _. tt };

    fn build(
        &mut self,
        frame: &SwappedFrame<'g, 'b>,
        plan: &Plan,
        packet_count: u8,
        out: &mut FixedBits<LARGEST>,
    ) -> bool {
        match self.place.step {
            FrameStep::Stamp => {
                write_timestamp(out, plan, packet_count, self.place.number);
                self.place.step = FrameStep::Signal;
                true
            }
            FrameStep::Signal => {
                let held = frame.frame;
                write_l1_current(
                    out,
                    plan,
                    packet_count,
                    self.place.number,
                    held.pre.sub(0, held.pre.len()),
                    held.conf.sub(0, held.conf.len()),
                    frame.dynamic.as_slice(),
                );
                self.place.step = FrameStep::Blocks;
                true
            }
            FrameStep::Blocks => self.build_block(frame, plan, packet_count, out),
            FrameStep::Over => false,
        }
    }
}
