// The numbers that say where the PLPs of a frame stand.
ghost use Rattle.std.specs.Prelude.{◌≡◌, ◌<◌, length, slice_index, IfOk};
ghost use Rattle.scheduler.specs.Shape.{blank, with_plp, with_type2};

use bit_slice::OutOfMemory;
use plp_config::Plan;
use std::alloc::Global;
use std::marker::Model;

/// The shape of a frame: PLP_NUM_BLOCKS and PLP_START of each PLP, in configuration order, and
/// SUB_SLICE_INTERVAL and TYPE_2_START (EN 302 755, clause 7.2.3.2).
#[derive(Debug, Drop)]
pub struct Shape {
    counts: Vec<u16>,
    starts: Vec<u32>,
    interval: u32,
    type2_start: u32,
}

impl Model for Shape {
    ghost use Rattle.std.specs.Prelude.{vec_len, ◌≡◌};
    ghost use Rattle.scheduler.specs.Shape.{FrameShape};

    ghost Value = { FrameShape };

    ghost view = { λ s. record {
      counts = s.counts.items;
      starts = s.starts.items;
      interval = s.interval;
      type2_start = s.type2_start;
    } };

    ghost invariant = { λ s. vec_len s.starts ≡ vec_len s.counts };
}

impl Shape {
    /// A shape for the PLPs of a plan, all its numbers 0. It takes all the memory that a shape needs.
    pub fn open(alloc: Global, plan: &Plan) -> Result<Shape, OutOfMemory>
        ensures { IfOk result (λ shape. shape ≡ blank (length plan.now.plps)) }
    {
        let plps = plan.config().plps.len();
        Ok(Shape {
            counts: vec![in alloc; 0; plps]?,
            starts: vec![in alloc; 0; plps]?,
            interval: 0,
            type2_start: 0,
        })
    }

    /// The number of PLPs.
    pub fn len(&self) -> usize
        ensures counts { result ≡ length self.now.counts }
        ensures starts { result ≡ length self.now.starts }
    {
        let _starts = &self.starts;
        self.counts.len()
    }

    /// The number of blocks of a PLP, PLP_NUM_BLOCKS.
    pub fn count(&self, plp: usize) -> u16
        requires { plp < length self.now.counts }
        ensures { result ≡ slice_index self.now.counts plp }
    {
        self.counts[plp]
    }

    /// The address of the first cell of a PLP, PLP_START.
    pub fn start(&self, plp: usize) -> u32
        requires { plp < length self.now.counts }
        ensures { result ≡ slice_index self.now.starts plp }
    {
        self.starts[plp]
    }

    /// The distance of the sub-slices of a PLP, SUB_SLICE_INTERVAL.
    pub fn interval(&self) -> u32
        ensures { result ≡ self.now.interval }
    {
        self.interval
    }

    /// The address behind the common PLPs and those of type 1, TYPE_2_START.
    pub fn type2_start(&self) -> u32
        ensures { result ≡ self.now.type2_start }
    {
        self.type2_start
    }

    /// Sets the numbers of one PLP.
    pub fn set(&mut self, plp: usize, count: u16, start: u32)
        requires { plp < length self.old.counts }
        ensures { self.new ≡ with_plp self.old plp count start }
    {
        self.counts[plp] = count;
        self.starts[plp] = start;
    }

    /// Sets the numbers of the PLPs of type 2 together.
    pub fn set_type2(&mut self, interval: u32, start: u32)
        ensures { self.new ≡ with_type2 self.old interval start }
    {
        self.interval = interval;
        self.type2_start = start;
    }
}
