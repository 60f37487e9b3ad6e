// The inputs of all PLPs.
ghost use Rattle.std.specs.Prelude.{◌≡◌, ◌≢◌, ◌<◌, ◌≤◌, ◌+◌, ◌^◌, ◌++◌, ◌∷◌, [], ℕ, List, Bool, length, map};
ghost use Rattle.std.specs.Prelude.{slice_index, slice_index_or, IfOk};
ghost use Rattle.linked_pool.specs.Pool.{IsWhole, list_at};
ghost use Rattle.plp_config.specs.declared.moment.TheConstants.{MOST_FRAMES};
ghost use Rattle.plp_config.specs.Plps.{plp_at};
ghost use Rattle.plp_config.specs.declared.config.Config.{Config};
ghost use Rattle.scheduler.specs.Laws.{CountsFit};
ghost use Rattle.mode_adapt.specs.Blocks.{told_counts};
ghost use Rattle.gateway_core.specs.IsFed.{IsSupplied, wanted, most};
ghost use Rattle.gateway_core.specs.Events.{Event, Offered, Ended, Begun, begun};
ghost use Rattle.gateway_core.specs.InputsStandFor.{AllFed, AreFor, AllContinue, AreBlocks, CutsOne, SameMost};
ghost use Rattle.gateway_core.specs.InputsStandFor.{HasFrame, AreSupplied, CountsStay};
ghost use Rattle.gateway_core.specs.Lists.{bits_in, later_in, AllShort};
ghost use Rattle.gateway_core.specs.declared.input.Input.{Input};

use crate::input::Input;
use bit_slice::OutOfMemory;
use linked_pool::Pool;
use mode_adapt::early_fits_law;
use plp_config::{Plan, spread_law};
use std::alloc::Global;
use ts_packet::TsPacket;

/// The inputs of no packets yet, for the PLPs of a plan.
pub fn open_inputs(alloc: Global, plan: &Plan) -> Result<Vec<Input>, OutOfMemory>
    ensures len { IfOk result (λ inputs. length inputs.items ≡ length plan.now.plps) }
    ensures fed { IfOk result (λ inputs. AllFed inputs.items (λ j. []) plan.now []) }
    ensures most { IfOk result (λ inputs. AreFor inputs.items plan.now) }
{
    let mut inputs = Vec::new(alloc);
    for plp in 0..plan.config().plps.len() {
        inputs.push(Input::open(alloc, plan, plp)?)?;
    }
    Ok(inputs)
}

/// How many packets the next frame still wants from an input.
pub fn wanted(inputs: &[Input], plp: usize) -> u64
    requires { plp < length inputs.now }
    ensures { result ≡ slice_index (map wanted inputs.now) plp }
{
    inputs[plp].wanted()
}

/// Takes the next packet of an input. The pool has a list for each, at the same place.
pub fn offer(inputs: &mut [Input], pool: &mut Pool, plp: usize, packet: &TsPacket)
    requires place { plp < length inputs.old }
    requires few { plp < 2 ^ 32 }
    requires lists { length pool.old.lists ≡ length inputs.old }
    requires wanted { 0 < slice_index (map wanted inputs.old) plp }
    requires ready { (d : Input) → ∥ IsSupplied (slice_index_or inputs.old plp d) pool.old plp ∥₁ }
    ensures fed { (c : Config) (events : List Event) → length inputs.old ≡ length c.plps → HasFrame c pool.old
        → AllFed inputs.old (bits_in pool.old) c events
        → AllFed inputs.new (bits_in pool.new) c (events ++ Offered plp packet.now ∷ []) }
    ensures fewer { slice_index (map wanted inputs.new) plp + 1 ≡ slice_index (map wanted inputs.old) plp }
    ensures others { (other : ℕ) → other ≢ plp → slice_index (map wanted inputs.new) other
        ≡ slice_index (map wanted inputs.old) other }
    ensures most { SameMost inputs.old inputs.new }
    ensures short { AllShort pool.old → AllShort pool.new }
    ensures lists { length pool.new.lists ≡ length pool.old.lists }
    ensures opened { pool.new.opened ≡ pool.old.opened }
    ensures whole { IsWhole pool.new }
{
    early_fits_law();
    inputs[plp].offer(packet, pool, plp as u32);
}

/// An input has ended.
pub fn end(inputs: &mut [Input], plp: usize)
    requires { plp < length inputs.old }
    ensures fed { (early : ℕ → List (List Bool)) (c : Config) (events : List Event) → AllFed inputs.old early c events
        → AllFed inputs.new early c (events ++ Ended plp ∷ []) }
    ensures none { slice_index (map wanted inputs.new) plp ≡ 0 }
    ensures others { (other : ℕ) → other ≢ plp → slice_index (map wanted inputs.new) other
        ≡ slice_index (map wanted inputs.old) other }
    ensures most { SameMost inputs.old inputs.new }
{
    inputs[plp].end();
}

// Goes on behind the next frame for one PLP: how many blocks the interleaving frame has that it carries. If none begins
// in it, they are those of the frame before.
fn cut_one(
    plan: &Plan,
    inputs: &mut [Input],
    pool: &mut Pool,
    plp: usize,
    frame: u64,
    before: u16,
) -> u16
    requires whole { length inputs.old ≡ length plan.now.plps }
    requires place { plp < length inputs.old }
    requires early { frame < MOST_FRAMES }
    requires none { slice_index (map wanted inputs.old) plp ≡ 0 }
    requires lists { length pool.old.lists ≡ length inputs.old }
    requires ready { (d : Input) → ∥ IsSupplied (slice_index_or inputs.old plp d) pool.old plp ∥₁ }
    ensures cuts { CutsOne plan.now frame inputs.old inputs.new pool.old pool.new plp before result }
    ensures most { SameMost inputs.old inputs.new }
    ensures short { AllShort pool.old → AllShort pool.new }
{
    let ticks = u64::from(plan.config().ticks);
    let due = plan.slots_by(plp, (frame + 1) * ticks);
    if !plan.is_first(plp, frame) {
        inputs[plp].pass(due);
        return before;
    }
    inputs[plp].cut(due, pool, plp as u32)
}

/// Ends the interleaving frames that begin in the next frame: the list of each PLP of which one does has its blocks. At
/// each place stands how many blocks the one has that the frame carries. After it the frame behind it is the next one.
pub fn cut(plan: &Plan, inputs: &mut [Input], pool: &mut Pool, frame: u64, counts: &mut [u16])
    requires whole { length inputs.old ≡ length plan.now.plps }
    requires early { frame < MOST_FRAMES }
    requires none { (plp : ℕ) → plp < length inputs.old → slice_index (map wanted inputs.old) plp ≡ 0 }
    requires frame { HasFrame plan.now pool.old }
    requires ready { ∥ AreSupplied plan.now frame inputs.old (bits_in pool.old) ∥₁ }
    requires lists { length pool.old.lists ≡ length inputs.old }
    requires counts { length counts.old ≡ length plan.now.plps }
    ensures fed { (events : List Event) → frame ≡ begun events → AllFed inputs.old (bits_in pool.old) plan.now events
        → AllFed inputs.new (later_in plan.now frame pool.new) plan.now (events ++ Begun ∷ []) }
    ensures blocks { (events : List Event) → frame ≡ begun events → AllFed inputs.old (bits_in pool.old) plan.now events
        → (all : ℕ → List (List ℕ)) → AllContinue plan.now events all → AreBlocks pool.new plan.now frame all }
    ensures counts { (events : List Event) → frame ≡ begun events → AllFed inputs.old (bits_in pool.old) plan.now events
        → CountsStay plan.now events frame counts.old
        → (all : ℕ → List (List ℕ)) → AllContinue plan.now events all → counts.new ≡ told_counts plan.now all frame }
    ensures stay { (events : List Event) → frame ≡ begun events → AllFed inputs.old (bits_in pool.old) plan.now events
        → CountsStay plan.now events frame counts.old
        → CountsStay plan.now (events ++ Begun ∷ []) (frame + 1) counts.new }
    ensures fit { AreFor inputs.old plan.now → CountsFit plan.now counts.old → CountsFit plan.now counts.new }
    // no list has more than an interleaving frame
    ensures within { (plp : ℕ) → plp < length plan.now.plps
        → length (list_at pool.new plp) ≤ (plp_at plan.now.plps plp).blocks }
    ensures len { length counts.new ≡ length counts.old }
    ensures most { SameMost inputs.old inputs.new }
    ensures short { AllShort pool.old → AllShort pool.new }
    ensures lists { length pool.new.lists ≡ length pool.old.lists }
    ensures opened { pool.new.opened ≡ pool.old.opened }
    ensures whole { IsWhole pool.new }
{
    early_fits_law();
    spread_law();
    plan.rules_law();
    for plp in 0..inputs.len() {
        counts[plp] = cut_one(plan, inputs, pool, plp, frame, counts[plp]);
    }
    pool.is_whole_law();
}
