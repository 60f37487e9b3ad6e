// The values that a plan gives.
ghost use Rattle.std.specs.Prelude.{◌≡◌, ◌<◌, ◌≤◌, ◌%◌, ◌^◌, ℕ, length, map, IfOk};
ghost use Rattle.std.specs.List.{All, range_with_len};
ghost use Rattle.plp_config.specs.Capacity.{IsPlan};
ghost use Rattle.plp_config.specs.Plps.{plp_at};
ghost use Rattle.scheduler.specs.Laws.{FitsL1};
ghost use Rattle.l1_signal.specs.Fields.{RowsFit};
ghost use Rattle.l1_signal.specs.L1Of.{pre_of, il_length_of, conf_plp_of, conf_with, conf_of, dyn_plp_of, dyn_of};
ghost use Rattle.l1_signal.specs.L1Of.{told_shape};
ghost use Rattle.l1_signal.specs.L1Pre.{PreFits};
ghost use Rattle.l1_signal.specs.Numbers.{HasPreNumbers, HasPlpNumbers};
ghost use Rattle.l1_signal.specs.L1Configurable.{conf_plp_rows, ConfFits};
ghost use Rattle.l1_signal.specs.L1Dynamic.{DynFits};

use crate::{ConfPlp, DynPlp, INFO_BITS, L1Conf, L1Dyn, L1Pre, PLP_BITS, PlpRows};
use bit_slice::OutOfMemory;
use plp_config::{FecSize, Modulation, Plan, Plp, PlpType, Rate};
use scheduler::Shape;
use std::alloc::Global;

// Gives back what it is given; its contract says that this can be written.
fn fitting_pre(pre: L1Pre) -> L1Pre
    requires { HasPreNumbers pre }
    ensures value { result ≡ pre }
    ensures fits { PreFits result }
{
    pre
}

// The same of the rows of a PLP.
fn fitting_plp(plp: ConfPlp) -> ConfPlp
    requires { HasPlpNumbers plp }
    ensures value { result ≡ plp }
    ensures fits { RowsFit conf_plp_rows result }
{
    plp
}

/// L1-pre of every frame.
#[tactic(auto, unfolding(crate::specs::L1Of::pre_of))]
pub fn pre_of(plan: &Plan) -> L1Pre
    ensures value { result ≡ pre_of plan.now }
    ensures fits { PreFits result }
{
    let config = plan.config();
    let l1 = config.l1;
    fitting_pre(L1Pre {
        stream_type: 0,
        bwt_ext: l1.bwt_ext,
        s1: 0,
        s2: l1.s2,
        l1_repetition_flag: 0,
        guard_interval: l1.guard,
        papr: l1.papr,
        l1_mod: l1.l1_mod,
        l1_cod: l1.l1_cod,
        l1_fec_type: l1.l1_fec,
        l1_post_size: l1.post_size,
        l1_post_info_size: (INFO_BITS + PLP_BITS * config.plps.len()) as u32,
        pilot_pattern: l1.pilot,
        tx_id_availability: l1.tx_id,
        cell_id: config.cell_id,
        network_id: config.network_id,
        t2_system_id: config.system_id,
        num_t2_frames: config.frames as u8,
        num_data_symbols: l1.symbols,
        regen_flag: l1.regen,
        l1_post_extension: 0,
        num_rf: 1,
        current_rf_idx: 0,
        t2_version: 2,
        l1_post_scrambled: 0,
        t2_base_lite: 0,
    })
}

// TIME_IL_LENGTH.
fn time_il_length(plp: Plp) -> u8
    requires { plp.interleave ≤ 255 }
    ensures { result ≡ il_length_of plp }
{
    if plp.spread > 1 {
        plp.spread
    } else {
        plp.interleave as u8
    }
}

#[tactic(auto, unfolding(crate::specs::L1Of::conf_plp_of))]
fn conf_plp_of(plp: Plp) -> ConfPlp
    requires blocks { plp.blocks ≤ 1023 }
    requires interleave { plp.interleave ≤ 255 }
    ensures value { result ≡ conf_plp_of plp }
    ensures fits { RowsFit conf_plp_rows result }
{
    fitting_plp(ConfPlp {
        plp_id: plp.id,
        plp_type: plp.plp_type.number(),
        plp_payload_type: 3,
        ff_flag: 0,
        first_rf_idx: 0,
        first_frame_idx: 0,
        plp_group_id: plp.group,
        plp_cod: plp.rate.plp_cod(),
        plp_mod: plp.modulation.plp_mod(),
        plp_rotation: u8::from(plp.rotation),
        plp_fec_type: plp.fec.plp_fec_type(),
        plp_num_blocks_max: plp.blocks,
        frame_interval: 1,
        time_il_length: time_il_length(plp),
        time_il_type: u8::from(plp.spread > 1),
        in_band_a_flag: 0,
        in_band_b_flag: 0,
        plp_mode: 2,
        static_flag: 0,
        static_padding_flag: 0,
    })
}

fn plp_at(plan: &Plan, place: usize) -> Plp
    requires { place < length plan.now.plps }
    ensures value { result ≡ plp_at plan.now.plps place }
    ensures plan { IsPlan plan.now }
{
    *plan.config().plps.get(place).unwrap()
}

fn conf_plp_at(plan: &Plan, place: usize) -> ConfPlp
    requires { place < length plan.now.plps }
    ensures value { result ≡ conf_plp_of (plp_at plan.now.plps place) }
    ensures fits { RowsFit conf_plp_rows result }
{
    conf_plp_of(plp_at(plan, place))
}

fn conf_plps_of(alloc: Global, plan: &Plan) -> Result<PlpRows<ConfPlp>, OutOfMemory>
    ensures value { IfOk result (λ plps. plps ≡ map conf_plp_of plan.now.plps) }
    ensures fits { IfOk result (All (RowsFit conf_plp_rows)) }
{
    let mut plps = PlpRows::new(alloc);
    for place in 0..plan.config().plps.len() {
        plps.push(conf_plp_at(plan, place))?;
    }
    Ok(plps)
}

fn conf_with(sub_slices: u16, frequency: u32, plps: PlpRows<ConfPlp>) -> L1Conf
    requires sub_slices { sub_slices ≤ 6480 }
    requires plps { (1 ≤ length plps) × (length plps ≤ 255) }
    requires fits { All (RowsFit conf_plp_rows) plps }
    ensures value { result ≡ conf_with sub_slices frequency plps }
    ensures fits { ConfFits result }
{
    L1Conf {
        sub_slices_per_frame: sub_slices,
        num_plp: plps.len() as u8,
        num_aux: 0,
        rf_idx: 0,
        frequency,
        plps,
        fef_length_msb: 0,
    }
}

/// The configurable part of every frame.
#[tactic(auto, unfolding(crate::specs::L1Of::conf_of))]
pub fn conf_of(alloc: Global, plan: &Plan) -> Result<L1Conf, OutOfMemory>
    ensures value { IfOk result (λ conf. conf ≡ conf_of plan.now) }
    ensures fits { IfOk result ConfFits }
{
    let config = plan.config();
    let plps = conf_plps_of(alloc, plan)?;
    Ok(conf_with(config.sub_slices, config.frequency, plps))
}

fn dyn_plp_of(plan: &Plan, shape: &Shape, place: usize) -> DynPlp
    requires plp { place < length plan.now.plps }
    requires shape { place < length shape.now.counts }
    ensures value { result ≡ dyn_plp_of plan.now shape.now place }
    ensures id { (plp_at plan.now.plps place).id < 2 ^ 8 }
{
    DynPlp {
        plp_id: plan.plp_id(place),
        plp_start: shape.start(place),
        plp_num_blocks: shape.count(place),
    }
}

fn set_dyn_plps(plan: &Plan, shape: &Shape, plps: &mut PlpRows<DynPlp>)
    requires plan { length plps.old ≡ length plan.now.plps }
    requires shape { length shape.now.counts ≡ length plan.now.plps }
    ensures value { plps.new ≡ map (dyn_plp_of plan.now shape.now) (range_with_len 0 (length plan.now.plps)) }
    ensures ids { (place : ℕ) → place < length plan.now.plps → (plp_at plan.now.plps place).id < 2 ^ 8 }
{
    for place in 0..plps.len() {
        plps.set(place, dyn_plp_of(plan, shape, place));
    }
}

fn frame_idx(plan: &Plan, frame: u64) -> u8
    ensures { result ≡ frame % plan.now.frames }
{
    (frame % u64::from(plan.config().frames)) as u8
}

/// Gives `out` the dynamic part of a frame of this shape.
#[tactic(auto, unfolding(crate::specs::L1Of::dyn_of))]
pub fn dyn_of(plan: &Plan, frame: u64, shape: &Shape, out: &mut L1Dyn)
    requires plan { length out.old.plps ≡ length plan.now.plps }
    requires shape { length shape.now.counts ≡ length plan.now.plps }
    ensures value { out.new ≡ dyn_of plan.now frame shape.now }
    // it can be written if the numbers of the shape fit their fields, as those of every frame do
    ensures fits { FitsL1 shape.now → DynFits out.new }
{
    out.frame_idx = frame_idx(plan, frame);
    out.sub_slice_interval = shape.interval();
    out.type_2_start = shape.type2_start();
    out.l1_change_counter = 0;
    out.start_rf_idx = 0;
    set_dyn_plps(plan, shape, &mut out.plps);
}

/// Gives `out` the shape that a dynamic part tells.
pub fn shape_of(dynamic: &L1Dyn, out: &mut Shape)
    requires { length out.old.counts ≡ length dynamic.now.plps }
    ensures { out.new ≡ told_shape dynamic.now }
{
    out.set_type2(dynamic.sub_slice_interval, dynamic.type_2_start);
    for place in 0..out.len() {
        let plp = dynamic.plps.at(place);
        out.set(place, plp.plp_num_blocks, plp.plp_start);
    }
}
