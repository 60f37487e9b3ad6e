// The shape of a frame, from the numbers of its blocks.
ghost use Rattle.std.specs.Prelude.{◌≡◌, ◌<◌, ◌+◌, length};
ghost use Rattle.scheduler.specs.Laws.{CountsFit};
ghost use Rattle.scheduler.specs.Shape.{cells_of, type2_start_of, interval_of, start_of, shape_of};
ghost use Rattle.scheduler.specs.Steps.{AreBefore, AreNext};

use crate::numbers::Shape;
use plp_config::Plan;

// A number of cells for the PLPs in one slice, common and of type 1, and one for type 2.
#[derive(Clone, Copy)]
struct Cells {
    type1: u32,
    type2: u32,
}

// The cells of a PLP in the frame.
fn cells_of(plan: &Plan, counts: &[u16], plp: usize) -> u32
    requires counts { CountsFit plan.now counts.now }
    requires plp { plp < length plan.now.plps }
    ensures value { result ≡ cells_of plan.now counts.now plp }
{
    u32::from(counts[plp]) * plan.block_cells(plp) / plan.spread(plp)
}

// The cells of all PLPs, by type.
fn all_cells(plan: &Plan, counts: &[u16]) -> Cells
    requires { CountsFit plan.now counts.now }
    ensures { AreBefore plan.now counts.now (length plan.now.plps) result }
{
    let mut all = Cells { type1: 0, type2: 0 };
    for plp in 0..counts.len() {
        let cells = cells_of(plan, counts, plp);
        if plan.is_type2(plp) {
            all.type2 += cells;
        } else {
            all.type1 += cells;
        }
    }
    all
}

// Where a PLP starts.
#[tactic(auto, unfolding(crate::specs::Shape::start_of))]
fn start_of(plan: &Plan, counts: &[u16], plp: usize, next: Cells) -> u32
    requires counts { CountsFit plan.now counts.now }
    requires plp { plp < length plan.now.plps }
    requires next { AreNext plan.now counts.now plp next }
    ensures { result ≡ start_of plan.now counts.now plp }
{
    if counts[plp] == 0 {
        return 0;
    }
    if plan.is_type2(plp) {
        next.type2
    } else {
        next.type1
    }
}

// Where the PLP after it starts.
fn behind(plan: &Plan, counts: &[u16], plp: usize, next: Cells) -> Cells
    requires counts { CountsFit plan.now counts.now }
    requires plp { plp < length plan.now.plps }
    requires next { AreNext plan.now counts.now plp next }
    ensures { AreNext plan.now counts.now (plp + 1) result }
{
    let cells = cells_of(plan, counts, plp);
    if plan.is_type2(plp) {
        Cells {
            type2: next.type2 + cells / u32::from(plan.config().sub_slices),
            ..next
        }
    } else {
        Cells {
            type1: next.type1 + cells,
            ..next
        }
    }
}

// TYPE_2_START. There is one sub-slice exactly if no PLP is of type 2.
#[tactic(auto, unfolding(crate::specs::Shape::type2_start_of))]
fn type2_start(plan: &Plan, counts: &[u16], all: Cells) -> u32
    requires { AreBefore plan.now counts.now (length plan.now.plps) all }
    ensures { result ≡ type2_start_of plan.now counts.now }
{
    if plan.config().sub_slices == 1 {
        0
    } else {
        all.type1
    }
}

// SUB_SLICE_INTERVAL.
#[tactic(auto, unfolding(crate::specs::Shape::interval_of))]
fn interval(plan: &Plan, counts: &[u16], all: Cells) -> u32
    requires { AreBefore plan.now counts.now (length plan.now.plps) all }
    ensures { result ≡ interval_of plan.now counts.now }
{
    all.type2 / u32::from(plan.config().sub_slices)
}

/// Gives a frame the shape of so many blocks for each PLP.
pub fn shape(plan: &Plan, counts: &[u16], out: &mut Shape)
    requires counts { CountsFit plan.now counts.now }
    requires plps { length out.old.counts ≡ length plan.now.plps }
    ensures shape { out.new ≡ shape_of plan.now counts.now }
    ensures counts { out.new.counts ≡ counts.now }
{
    let all = all_cells(plan, counts);
    let type2_start = type2_start(plan, counts, all);
    out.set_type2(interval(plan, counts, all), type2_start);
    let mut next = Cells {
        type1: 0,
        type2: type2_start,
    };
    for plp in 0..out.len() {
        out.set(plp, counts[plp], start_of(plan, counts, plp, next));
        next = behind(plan, counts, plp, next);
    }
}
