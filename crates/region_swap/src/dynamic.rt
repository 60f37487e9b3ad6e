// The dynamic part of a frame, made anew.
ghost use Rattle.std.specs.Prelude.{◌≡◌, ◌≤◌, length, vec_len};
ghost use Rattle.scheduler.specs.Laws.{CountsFit};
ghost use Rattle.l1_signal.specs.declared.lengths.TheConstants.{MOST_DYN_BITS};
ghost use Rattle.region_swap.specs.Telling.{counts_told, TellsCounts};

use bit_slice::{BitSlice, FixedBits, OutOfMemory};
use frame_groups::{read_dynamic, tell_shape};
use gateway_core::write_dynamic;
use l1_signal::{L1Dyn, MOST_DYN_BYTES};
use plp_config::Plan;
use scheduler::{Shape, field_law, shape};
use std::alloc::Global;

/// The dynamic part of a frame, with another number of blocks of one PLP.
#[derive(Drop)]
pub struct Dynamic {
    pub bits: FixedBits<MOST_DYN_BYTES>,
    // What is read of the frame's own, and then written.
    rows: L1Dyn,
    shape: Shape,
    counts: Vec<u16>,
    ghost short: { length bits ≤ MOST_DYN_BITS },
    ghost plps: { length rows.plps ≡ length shape.counts },
    ghost whole: { vec_len counts ≡ length shape.counts },
}

// Copies the numbers of blocks of a shape.
fn copy_counts(shape: &Shape, counts: &mut [u16])
    requires { length counts.old ≡ length shape.now.counts }
    ensures { counts.new ≡ shape.now.counts }
{
    for plp in 0..counts.len() {
        counts[plp] = shape.count(plp);
    }
}

// Reads how many blocks a dynamic part tells of each PLP.
fn read_counts(
    plan: &Plan,
    dynamic: &BitSlice<'_>,
    rows: &mut L1Dyn,
    told: &mut Shape,
    counts: &mut [u16],
)
    requires tells { TellsCounts plan.now dynamic.now }
    requires rows { length rows.old.plps ≡ length plan.now.plps }
    requires shape { length told.old.counts ≡ length plan.now.plps }
    requires counts { length counts.old ≡ length plan.now.plps }
    ensures counts { counts.new ≡ counts_told plan.now dynamic.now }
    ensures fit { CountsFit plan.now counts.new }
    ensures rows { length rows.new.plps ≡ length plan.now.plps }
    ensures shape { length told.new.counts ≡ length plan.now.plps }
{
    read_dynamic(dynamic, rows);
    tell_shape(rows, told);
    copy_counts(told, counts);
}

impl Dynamic {
    ghost use Rattle.std.specs.Prelude.{◌≡◌, ◌<◌, ◌≤◌, length, IfOk};
    ghost use Rattle.plp_config.specs.Plps.{plp_at};
    ghost use Rattle.region_swap.specs.Making.{IsMade, plps_in};
    ghost use Rattle.region_swap.specs.Telling.{TellsCounts};

    /// One without bits, with the memory of those of all frames of a plan.
    pub fn open(alloc: Global, plan: &Plan) -> Result<Dynamic, OutOfMemory>
        ensures { IfOk result (λ d. plps_in d ≡ length plan.now.plps) }
    {
        let plps = plan.config().plps.len();
        Ok(Dynamic {
            bits: FixedBits::new(),
            rows: L1Dyn::open(alloc, plps as u16)?,
            shape: Shape::open(alloc, plan)?,
            counts: vec![in alloc; 0; plps]?,
        })
    }

    /// Writes that of a frame, by its own: the PLP at a place has so many blocks, and each other as many as before.
    #[tactic(auto, unfolding(gateway_core::specs::Signalling::dyn_part))]
    pub fn write(&mut self, plan: &Plan, frame: u64, own: &BitSlice<'_>, plp: usize, count: u16)
        requires plps { plps_in self.old ≡ length plan.now.plps }
        requires tells { TellsCounts plan.now own.now }
        requires place { plp < length plan.now.plps }
        requires few { count ≤ (plp_at plan.now.plps plp).blocks }
        ensures made { IsMade plan.now frame plp count own.now self.new.bits }
        ensures plps { plps_in self.new ≡ length plan.now.plps }
    {
        field_law();
        plan.rules_law();
        read_counts(plan, own, &mut self.rows, &mut self.shape, &mut self.counts);
        self.counts[plp] = count;
        shape(plan, &self.counts, &mut self.shape);
        write_dynamic(plan, frame, &self.shape, &mut self.rows, &mut self.bits);
    }
}
