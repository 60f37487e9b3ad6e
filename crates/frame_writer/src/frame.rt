// A frame whose blocks wait in a pool, and a place among its packets.
ghost use Rattle.std.specs.Prelude.{◌≡◌, ◌<◌, ◌≤◌, ◌+◌, ◌^◌, ℕ, [], length, slice_index_or};
ghost use Rattle.linked_pool.specs.Pool.{list_at};
ghost use Rattle.plp_config.specs.declared.config.Config.{Config};
ghost use Rattle.frame_writer.specs.Left.{blocks_left};

use crate::packet::{write_block, write_l1_current, write_timestamp};
use crate::source::FrameSource;
use crate::step::{FrameStep, first_step};
use crate::walk::PoolWalk;
use bit_slice::{BitSlice, FixedBits};
use linked_pool::{BlockRef, Pool};
use plp_config::Plan;
use t2mi_packet::LARGEST;

/// A frame: L1-pre without its CRC_32, the configurable and the dynamic part of L1-post, and its blocks, a list for
/// each PLP. It is lent by those who hold it, and no block is taken from it.
#[derive(Drop)]
pub struct PoolFrame<'g> {
    pub pre: BitSlice<'g>,
    pub conf: BitSlice<'g>,
    pub dynamic: BitSlice<'g>,
    pub blocks: &'g Pool,
}

/// A place among the packets of a frame: those before it were built.
#[derive(Clone, Copy)]
pub struct PoolPlace {
    number: u64,
    step: FrameStep,
    // The PLP whose block is next, and the place of that block in its list.
    plp: u32,
    place: u32,
}

// The next block, from a place in the list of a PLP on: the PLP that has it, and its place there. No PLP has it if all
// are over.
fn next_block(pool: &Pool, plp: u32, place: u32, end: u32) -> (u32, u32)
    requires end { end ≡ length pool.now.lists }
    requires order { plp ≤ end }
    ensures inside { result.0 ≤ end }
    ensures same { (c : Config) (frame_idx : ℕ) → blocks_left c frame_idx plp place pool.now.lists
        ≡ blocks_left c frame_idx result.0 result.1 pool.now.lists }
    ensures some { result.0 < end → result.1 < length (list_at pool.now result.0) }
    ensures small { result.0 < end → result.1 + 1 < 2 ^ 32 }
{
    let mut at = place;
    for list in plp..end {
        if pool.count(list) > at {
            return (list, at);
        }
        at = 0;
    }
    (end, at)
}

// The block of a list at a place.
fn block_at<'g>(walk: &mut PoolWalk<'g>, list: u32, place: u32) -> BlockRef<'g>
    requires list { list < length walk.old.lists }
    requires there { place < length (list_at walk.old list) }
    ensures block { result ≡ slice_index_or (list_at walk.old list) place [] }
    ensures walk { walk.new ≡ walk.old }
{
    walk.block(list, place).unwrap()
}

impl PoolPlace {
    ghost use Rattle.std.specs.Prelude.{◌≡◌, ◌<◌, ◌≤◌, [], true, false};
    ghost use Rattle.plp_config.specs.declared.config.Config.{Config};
    ghost use Rattle.plp_config.specs.declared.moment.TheConstants.{MOST_FRAMES};
    ghost use Rattle.frame_writer.specs.Builds.{Builds};
    ghost use Rattle.frame_writer.specs.Left.{IsOver, CanBeSent, bodies_of, left_of};
    ghost use Rattle.frame_writer.specs.declared.frame.PoolFrame.{PoolFrame};

    /// The place of which nothing is left, whatever the frame is.
    pub fn over() -> PoolPlace
        ensures left { (c : Config) (f : PoolFrame) → left_of c result f ≡ [] }
        ensures over { IsOver result }
        ensures number { result.number ≡ 0 }
        ensures plp { result.plp ≡ 0 }
    {
        PoolPlace {
            number: 0,
            step: FrameStep::Over,
            plp: 0,
            place: 0,
        }
    }

    /// The first place of a frame.
    pub fn first(plan: &Plan, number: u64) -> PoolPlace
        ensures left { (f : PoolFrame) → left_of plan.now result f ≡ bodies_of plan.now number f }
        ensures number { result.number ≡ number }
        ensures plp { result.plp ≡ 0 }
    {
        PoolPlace {
            number,
            step: first_step(plan, number),
            plp: 0,
            place: 0,
        }
    }

    // Builds the packet of the next block, if there is one.
    fn build_block(
        &mut self,
        frame: &PoolFrame<'_>,
        walk: &mut PoolWalk<'_>,
        plan: &Plan,
        packet_count: u8,
        out: &mut FixedBits<LARGEST>,
    ) -> bool
        requires walk { walk.old ≡ frame.now.blocks.now }
        requires step { self.old.step ≡ FrameStep.Blocks }
        requires can { CanBeSent plan.now frame.now }
        requires inside { self.old.plp ≤ length plan.now.plps }
        ensures some { result ≡ true → Builds plan.now self.old.number packet_count
            (left_of plan.now self.old frame.now)
            (left_of plan.now self.new frame.now) out.new }
        ensures none { result ≡ false → left_of plan.now self.old frame.now ≡ [] }
        ensures over { result ≡ false → self.new.step ≡ FrameStep.Over }
        ensures stays { result ≡ false → out.new ≡ out.old }
        ensures number { self.new.number ≡ self.old.number }
        ensures inside { self.new.plp ≤ length plan.now.plps }
        ensures walk { walk.new ≡ walk.old }
    {
        plan.rules_law();
        let end = plan.config().plps.len() as u32;
        let (plp, place) = next_block(frame.blocks, self.plp, self.place, end);
        if plp >= end {
            self.step = FrameStep::Over;
            return false;
        }
        let block = block_at(walk, plp, place);
        write_block(
            out,
            plan,
            packet_count,
            self.number,
            plp as usize,
            place == 0,
            &block,
        );
        self.plp = plp;
        self.place = place + 1;
        true
    }

    // Builds the next packet, if there is one. The walk is over the pool of the frame.
    fn build_next(
        &mut self,
        frame: &PoolFrame<'_>,
        walk: &mut PoolWalk<'_>,
        plan: &Plan,
        packet_count: u8,
        out: &mut FixedBits<LARGEST>,
    ) -> bool
        requires walk { walk.old ≡ frame.now.blocks.now }
        requires can { CanBeSent plan.now frame.now }
        requires early { self.old.number < MOST_FRAMES }
        requires inside { self.old.plp ≤ length plan.now.plps }
        ensures some { result ≡ true → Builds plan.now self.old.number packet_count
            (left_of plan.now self.old frame.now)
            (left_of plan.now self.new frame.now) out.new }
        ensures none { result ≡ false → left_of plan.now self.old frame.now ≡ [] }
        ensures over { result ≡ false → IsOver self.new }
        ensures stays { result ≡ false → out.new ≡ out.old }
        ensures number { self.new.number ≡ self.old.number }
        ensures inside { self.new.plp ≤ length plan.now.plps }
        ensures walk { walk.new ≡ walk.old }
    {
        match self.step {
            FrameStep::Stamp => {
                write_timestamp(out, plan, packet_count, self.number);
                self.step = FrameStep::Signal;
                true
            }
            FrameStep::Signal => {
                write_l1_current(
                    out,
                    plan,
                    packet_count,
                    self.number,
                    frame.pre.sub(0, frame.pre.len()),
                    frame.conf.sub(0, frame.conf.len()),
                    frame.dynamic.sub(0, frame.dynamic.len()),
                );
                self.step = FrameStep::Blocks;
                true
            }
            FrameStep::Blocks => self.build_block(frame, walk, plan, packet_count, out),
            FrameStep::Over => false,
        }
    }
}

impl<'g> FrameSource<PoolFrame<'g>> for PoolPlace {
    ghost use Rattle.std.specs.Prelude.{◌<◌, ◌≤◌, length};
    ghost use Rattle.plp_config.specs.declared.moment.TheConstants.{MOST_FRAMES};
    ghost use Rattle.frame_writer.specs.Left.{IsOver, CanBeSent, left_of};

    ghost number = { λ p. p.number };

    ghost left = { λ p f c. left_of c p f };

    ghost IsFor = { λ p f c. CanBeSent c f × ((p.number < MOST_FRAMES) × (p.plp ≤ length c.plps)) };

    ghost IsOver = { λ p. IsOver p };

    ghost kept = { λ _ _. tt };

    fn build(
        &mut self,
        frame: &PoolFrame<'g>,
        plan: &Plan,
        packet_count: u8,
        out: &mut FixedBits<LARGEST>,
    ) -> bool {
        let mut walk = PoolWalk::new(frame.blocks);
        self.build_next(frame, &mut walk, plan, packet_count, out)
    }
}

/// A place among the packets of a frame, and a walk over its blocks. It builds what the place builds, and finds the
/// block behind the last one in a fixed number of steps.
#[derive(Drop)]
pub struct WalkedPlace<'g> {
    pub place: PoolPlace,
    pub walk: PoolWalk<'g>,
}

impl<'g> FrameSource<PoolFrame<'g>> for WalkedPlace<'g> {
    ghost use Rattle.std.specs.Prelude.{◌≡◌, ◌<◌, ◌≤◌, length};
    ghost use Rattle.plp_config.specs.declared.moment.TheConstants.{MOST_FRAMES};
    ghost use Rattle.frame_writer.specs.Left.{IsOver, CanBeSent, left_of};

    ghost number = { λ p. p.place.number };

    ghost left = { λ p f c. left_of c p.place f };

    // The walk is over the pool of the frame.
    ghost IsFor = { λ p f c. (CanBeSent c f × ((p.place.number < MOST_FRAMES) × (p.place.plp ≤ length c.plps)))
        × (p.walk ≡ f.blocks.now) };

    ghost IsOver = { λ p. IsOver p.place };

    ghost kept = { λ _ _. tt };

    fn build(
        &mut self,
        frame: &PoolFrame<'g>,
        plan: &Plan,
        packet_count: u8,
        out: &mut FixedBits<LARGEST>,
    ) -> bool {
        self.place
            .build_next(frame, &mut self.walk, plan, packet_count, out)
    }
}
