// The places of the blocks of a frame.
ghost use Rattle.std.specs.Prelude.{◌≡◌, ◌<◌, ◌≤◌, ◌+◌, length, slice_index};
ghost use Rattle.linked_pool.specs.Pool.{chunks_for};
ghost use Rattle.plp_config.specs.Capacity.{block_bytes};
ghost use Rattle.frame_groups.specs.Readable.{coming};

use bit_slice::OutOfMemory;
use linked_pool::{CHUNK, group_chunks};
use plp_config::Plan;
use scheduler::Shape;
use std::alloc::Global;

/// Where the places of each PLP begin, and where all of them end.
#[derive(Drop)]
pub struct Layout {
    starts: Vec<u32>,
    // Whether blocks at all of them have room.
    is_room: bool,
}

// How many blocks of a PLP come with a frame.
fn coming(plan: &Plan, number: u64, shape: &Shape, plp: usize) -> u16
    requires inside { plp < length plan.now.plps }
    requires shape { length shape.now.counts ≡ length plan.now.plps }
    ensures { result ≡ slice_index (coming plan.now number shape.now) plp }
{
    if plan.is_first(plp, number) {
        return shape.count(plp);
    }
    0
}

// The chunks of the pool that a block of a PLP fills.
fn block_chunks(plan: &Plan, plp: usize) -> u32
    requires { plp < length plan.now.plps }
    ensures value { result ≡ chunks_for (block_bytes plan.now plp) }
    ensures most { result ≤ 27 }
{
    (plan.block_bytes(plp) as usize).div_ceil(CHUNK).max(1) as u32
}

impl Layout {
    ghost use Rattle.std.specs.Prelude.{◌≡◌, ◌+◌, ◌≤◌, length, IfOk, slice_index_or};
    ghost use Rattle.frame_weave.specs.Slots.{IsLaid};

    /// Takes the memory for the PLPs of a plan. There are no places yet.
    pub fn open(alloc: Global, plan: &Plan) -> Result<Layout, OutOfMemory>
        ensures { IfOk result (λ layout. length layout.starts.items ≡ length plan.now.plps + 1) }
    {
        plan.rules_law();
        Ok(Layout {
            starts: vec![in alloc; 0; plan.config().plps.len() + 1]?,
            is_room: false,
        })
    }

    /// Lays the places of a frame of this shape.
    pub fn lay(&mut self, plan: &Plan, number: u64, shape: &Shape)
        requires sized { length self.old.starts.items ≡ length plan.now.plps + 1 }
        requires shape { length shape.now.counts ≡ length plan.now.plps }
        ensures laid { IsLaid plan.now (coming plan.now number shape.now) self.new }
        ensures sized { length self.new.starts.items ≡ length self.old.starts.items }
    {
        plan.rules_law();
        let mut end: u32 = 0;
        let mut need: u64 = 0;
        self.starts[0] = 0;
        for plp in 0..plan.config().plps.len() {
            let count = u32::from(coming(plan, number, shape, plp));
            end += count;
            need += u64::from(count) * u64::from(block_chunks(plan, plp));
            self.starts[plp + 1] = end;
        }
        self.is_room = need <= u64::from(group_chunks(plan));
    }

    /// Whether blocks at all places have room.
    pub fn is_room(&self) -> bool
        ensures { result ≡ self.now.is_room }
    {
        self.is_room
    }

    /// Where the places of a PLP begin; behind the last PLP, where all end.
    pub fn start(&self, plp: usize) -> u32
        ensures { result ≡ slice_index_or self.now.starts.items plp 0 }
    {
        if plp >= self.starts.len() {
            return 0;
        }
        self.starts[plp]
    }
}
