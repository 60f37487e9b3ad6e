// The dynamic part of L1-post of a frame, as bits.
ghost use Rattle.std.specs.Prelude.{◌≡◌, ◌≤◌, length};
ghost use Rattle.scheduler.specs.Laws.{CountsFit, FitsL1};
ghost use Rattle.l1_signal.specs.L1Dynamic.{dyn_bits};
ghost use Rattle.l1_signal.specs.L1Of.{dyn_of};
ghost use Rattle.l1_signal.specs.Lengths.{dyn_len};
ghost use Rattle.gateway_core.specs.Signalling.{dyn_part};
ghost use Rattle.l1_signal.specs.declared.lengths.TheConstants.{MOST_DYN_BITS};

use bit_slice::{FixedBits, OutOfMemory};
use l1_signal::{L1Dyn, MOST_DYN_BITS, MOST_DYN_BYTES, dyn_law, dyn_of, write_dyn};
use plp_config::Plan;
use scheduler::{Shape, field_law, shape};
use std::alloc::Global;

/// Writes the dynamic part of L1-post of a frame of a shape, by rows that are of as many PLPs.
#[tactic(auto, unfolding(l1_signal::specs::L1Of::dyn_of))]
pub fn write_dynamic(
    plan: &Plan,
    frame: u64,
    shape: &Shape,
    rows: &mut L1Dyn,
    bits: &mut FixedBits<MOST_DYN_BYTES>,
)
    requires fits { FitsL1 shape.now }
    requires shape { length shape.now.counts ≡ length plan.now.plps }
    requires rows { length rows.old.plps ≡ length plan.now.plps }
    ensures value { bits.new ≡ dyn_bits (dyn_of plan.now frame shape.now) }
    ensures size { length bits.new ≡ dyn_len (length plan.now.plps) }
    ensures short { length bits.new ≤ MOST_DYN_BITS }
    ensures rows { length rows.new.plps ≡ length plan.now.plps }
{
    dyn_law();
    plan.rules_law();
    dyn_of(plan, frame, shape, rows);
    bits.clear();
    // There is room for it.
    write_dyn(bits, rows).unwrap();
}

/// The dynamic part of L1-post, written anew for each frame.
#[derive(Drop)]
pub struct Dynamic {
    pub bits: FixedBits<MOST_DYN_BYTES>,
    // The numbers from which it is written.
    shape: Shape,
    rows: L1Dyn,
    ghost short: { length bits ≤ MOST_DYN_BITS },
    ghost plps: { length rows.plps ≡ length shape.counts },
}

impl Dynamic {
    ghost use Rattle.std.specs.Prelude.{◌≡◌, IfOk, length};

    /// One without bits, with the memory of those of all frames of a plan.
    pub fn open(alloc: Global, plan: &Plan) -> Result<Dynamic, OutOfMemory>
        ensures { IfOk result (λ d. length d.shape.counts ≡ length plan.now.plps) }
    {
        let plps = plan.config().plps.len();
        Ok(Dynamic {
            bits: FixedBits::new(),
            shape: Shape::open(alloc, plan)?,
            rows: L1Dyn::open(alloc, plps as u16)?,
        })
    }

    /// Writes that of a frame with so many blocks of each PLP.
    #[tactic(auto, unfolding(crate::specs::Signalling::dyn_part))]
    pub fn write(&mut self, plan: &Plan, frame: u64, counts: &[u16])
        requires plps { length self.old.shape.counts ≡ length plan.now.plps }
        requires fit { CountsFit plan.now counts.now }
        ensures bits { self.new.bits ≡ dyn_part plan.now frame counts.now }
        ensures plps { length self.new.shape.counts ≡ length plan.now.plps }
    {
        field_law();
        plan.rules_law();
        shape(plan, counts, &mut self.shape);
        write_dynamic(plan, frame, &self.shape, &mut self.rows, &mut self.bits);
    }
}
