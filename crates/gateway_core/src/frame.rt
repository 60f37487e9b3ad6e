// The packets of a frame, one by one.
ghost use Rattle.std.specs.Prelude.{◌≡◌, ◌<◌, ◌≤◌, ◌==◌, ◌||◌, not, ℕ, [], length, slice_index_or, vec_len};
ghost use Rattle.std.specs.Prelude.{IfSome, IfNone};
ghost use Rattle.linked_pool.specs.Fits.{frame_chunks};
ghost use Rattle.linked_pool.specs.Pool.{list_at};
ghost use Rattle.plp_config.specs.declared.moment.TheConstants.{MOST_FRAMES};
ghost use Rattle.frame_writer.specs.Flowing.{packet_bound};
ghost use Rattle.gateway_core.specs.Lists.{AllShort, IsNext, own_in};
ghost use Rattle.frame_writer.specs.declared.step.FrameStep.TheVariants.{Over};

use crate::dynamic::Dynamic;
use bit_slice::{FixedBits, OutOfMemory};
use frame_writer::{
    FrameSource, FrameStep, Signalling, first_step, write_block, write_l1_current, write_timestamp,
};
use linked_pool::{BlockRef, Pool, frame_chunks};
use plp_config::{Plan, block_law};
use std::alloc::Global;
use t2mi_packet::LARGEST;

// The first list from a given one on that has a block that is sent in a frame.
fn next_list(plan: &Plan, pool: &Pool, frame: u64, from: u32) -> Option<u32>
    requires { length pool.now.lists ≡ length plan.now.plps }
    ensures next { IfSome result (IsNext plan.now frame pool.now from) }
    ensures none { IfNone result ((j : ℕ) → from ≤ j → own_in plan.now frame pool.now j ≡ []) }
{
    let lists = plan.config().plps.len() as u32;
    for list in from..lists {
        if plan.is_first(list as usize, frame) && pool.count(list) > 0 {
            return Some(list);
        }
    }
    None
}

// Whether the next block, of PLP plp, is the first one of its PLP: it is of a later PLP than from, or no block of from
// was built yet. Its packet has intl_frame_start then.
fn is_first(first: bool, from: u32, plp: u32) -> bool
    ensures { result ≡ first || not (plp == from) }
{
    first || plp != from
}

// The first block of a list.
fn front_block(pool: &Pool, list: u32) -> BlockRef<'_>
    requires list { list < length pool.now.lists }
    requires some { 0 < length (list_at pool.now list) }
    ensures { result ≡ slice_index_or (list_at pool.now list) 0 [] }
{
    pool.front(list).unwrap()
}

/// The packets of a frame that were not built yet. The lists of the PLPs of which an interleaving frame begins in it
/// hold its blocks that were not; the others, and all once none is left, hold the blocks that the chains put already
/// for later ones.
#[derive(Drop)]
pub struct Frame {
    number: u64,
    dynamic: Dynamic,
    // A list for each PLP, and how many blocks each PLP has in the interleaving frame that the frame carries.
    pub blocks: Pool,
    pub counts: Vec<u16>,
    step: FrameStep,
    // The PLP from which on the next block is looked for, and whether none of its blocks was built yet.
    plp: u32,
    first: bool,
    ghost early: { number < MOST_FRAMES },
    ghost lists: { length blocks.lists ≡ vec_len counts },
    ghost shape: { length dynamic.shape.counts ≡ vec_len counts },
    ghost short: { AllShort blocks },
}

impl Frame {
    ghost use Rattle.std.specs.Prelude.{◌≡◌, ◌<◌, ◌≤◌, ◌*◌, ◌^◌, ℕ, true, false, [], length, replicate, IfOk};
    ghost use Rattle.linked_pool.specs.Pool.{list_at};
    ghost use Rattle.plp_config.specs.Plps.{plp_at};
    ghost use Rattle.scheduler.specs.Laws.{CountsFit};
    ghost use Rattle.gateway_core.specs.Lists.{own_in, later_in};
    ghost use Rattle.frame_writer.specs.Builds.{Builds};
    ghost use Rattle.gateway_core.specs.Left.{left, all_of, early_of, layout_of};
    ghost use Rattle.frame_writer.specs.declared.signalling.Signalling.{Signalling};

    /// One of which nothing is left, with the memory of all frames of a plan.
    pub fn open(alloc: Global, plan: &Plan) -> Result<Frame, OutOfMemory>
        ensures over { IfOk result (λ f. f.step ≡ Over) }
        ensures early { IfOk result (λ f. (j : ℕ) → early_of plan.now f j ≡ []) }
        ensures layout { IfOk result (λ f. layout_of f ≡ record {
          number = 0;
          lists = length plan.now.plps;
          chunks = frame_chunks plan.now;
          counts = replicate (length plan.now.plps) 0;
        }) }
    {
        let plps = plan.config().plps.len();
        Ok(Frame {
            number: 0,
            dynamic: Dynamic::open(alloc, plan)?,
            blocks: Pool::open(alloc, frame_chunks(plan), plps as u32)?,
            counts: vec![in alloc; 0; plps]?,
            step: FrameStep::Over,
            plp: 0,
            first: true,
        })
    }

    /// Begins the frame whose blocks the lists hold, no more of a PLP than an interleaving frame has; `counts` tells
    /// how many blocks each PLP has in the one that the frame carries.
    pub fn begin(&mut self, plan: &Plan, number: u64)
        requires early { number < MOST_FRAMES }
        requires plps { length self.old.blocks.lists ≡ length plan.now.plps }
        requires fit { CountsFit plan.now self.old.counts.items }
        requires within { (plp : ℕ) → plp < length plan.now.plps
            → length (list_at self.old.blocks plp) ≤ (plp_at plan.now.plps plp).blocks }
        ensures all { (s : Signalling) → left plan.now s self.new
            ≡ all_of plan.now s number self.old.counts.items (own_in plan.now number self.old.blocks) }
        ensures few { (s : Signalling) → packet_bound * length (left plan.now s self.new) ≤ 2 ^ 32 }
        ensures early { (j : ℕ) → early_of plan.now self.new j ≡ later_in plan.now number self.old.blocks j }
        ensures layout { layout_of self.new ≡ record (layout_of self.old) { number = number } }
    {
        block_law();
        plan.rules_law();
        self.dynamic.write(plan, number, &self.counts);
        self.number = number;
        self.step = first_step(plan, number);
        self.plp = 0;
        self.first = true;
    }

    // Builds the packet of the next block, if there is one.
    fn build_block(&mut self, plan: &Plan, packet_count: u8, out: &mut FixedBits<LARGEST>) -> bool
        requires plps { length self.old.blocks.lists ≡ length plan.now.plps }
        requires step { self.old.step ≡ FrameStep.Blocks }
        ensures some { result ≡ true → (s : Signalling)
            → Builds plan.now self.old.number packet_count (left plan.now s self.old) (left plan.now s self.new)
            out.new }
        ensures none { result ≡ false → (s : Signalling) → left plan.now s self.old ≡ [] }
        ensures over { result ≡ false → self.new.step ≡ Over }
        ensures stays { result ≡ false → out.new ≡ out.old }
        ensures early { (j : ℕ) → early_of plan.now self.new j ≡ early_of plan.now self.old j }
        ensures layout { layout_of self.new ≡ layout_of self.old }
    {
        let Some(list) = next_list(plan, &self.blocks, self.number, self.plp) else {
            self.step = FrameStep::Over;
            return false;
        };
        let first = is_first(self.first, self.plp, list);
        let block = front_block(&self.blocks, list);
        write_block(
            out,
            plan,
            packet_count,
            self.number,
            list as usize,
            first,
            &block,
        );
        self.blocks.pop(list);
        self.plp = list;
        self.first = false;
        true
    }

    // Builds the next packet, if there is one.
    fn build_packet(
        &mut self,
        plan: &Plan,
        signalling: &Signalling,
        packet_count: u8,
        out: &mut FixedBits<LARGEST>,
    ) -> bool
        requires { length self.old.blocks.lists ≡ length plan.now.plps }
        ensures some { result ≡ true → Builds plan.now self.old.number packet_count
            (left plan.now signalling.now self.old)
            (left plan.now signalling.now self.new) out.new }
        ensures none { result ≡ false → (left plan.now signalling.now self.old ≡ [])
            × (left plan.now signalling.now self.new ≡ []) }
        ensures over { result ≡ false → self.new.step ≡ Over }
        ensures stays { result ≡ false → out.new ≡ out.old }
        ensures early { (j : ℕ) → early_of plan.now self.new j ≡ early_of plan.now self.old j }
        ensures layout { layout_of self.new ≡ layout_of self.old }
    {
        match self.step {
            FrameStep::Stamp => {
                write_timestamp(out, plan, packet_count, self.number);
                self.step = FrameStep::Signal;
                true
            }
            FrameStep::Signal => {
                let (pre, conf) = (signalling.pre.as_slice(), signalling.conf.as_slice());
                write_l1_current(
                    out,
                    plan,
                    packet_count,
                    self.number,
                    pre,
                    conf,
                    self.dynamic.bits.as_slice(),
                );
                self.step = FrameStep::Blocks;
                true
            }
            FrameStep::Blocks => self.build_block(plan, packet_count, out),
            FrameStep::Over => false,
        }
    }
}

impl FrameSource<Signalling> for Frame {
    ghost use Rattle.std.specs.Prelude.{◌≡◌, length};
    ghost use Rattle.gateway_core.specs.Left.{left, Stays, stays_of};
    ghost use Rattle.frame_writer.specs.declared.step.FrameStep.TheVariants.{Over};

    ghost number = { λ f. f.number };

    ghost left = { λ f s c. left c s f };

    ghost IsFor = { λ f _ c. length f.blocks.lists ≡ length c.plps };

    ghost IsOver = { λ f. f.step ≡ Over };

    ghost Kept = { Stays };

    ghost kept = { λ f c. stays_of c f };

    fn build(
        &mut self,
        signalling: &Signalling,
        plan: &Plan,
        packet_count: u8,
        out: &mut FixedBits<LARGEST>,
    ) -> bool {
        self.build_packet(plan, signalling, packet_count, out)
    }
}
