// The units that the second modulator of a trial does not read.
ghost use Rattle.std.specs.Prelude.{◌≡◌, ◌<◌, IfOk, OnOk};
ghost use Rattle.trial_run.specs.Draws.{after};
ghost use Rattle.trial_run.specs.Losses.{is_kept as is_kept_by, unit_count, kept_by, kept_from};

use crate::draws::Draws;
use bit_slice::OutOfMemory;
use std::alloc::Global;
use ts_packet::SIZE;

// One of so many units of the second half is lost.
const LOST_ONE_OF: u32 = 64;

// Whether it reads the unit of this number among all, by the draw for the unit.
fn is_kept(units: usize, unit: usize, draw: u32) -> bool
    ensures { result ≡ is_kept_by units unit draw }
{
    unit != 0 && (unit < units / 2 || draw % LOST_ONE_OF != 0)
}

// What it reads of the unit of this number, by the draw for the unit.
fn kept_by(stream: &[u8], unit: usize, draw: u32) -> &[u8]
    requires { unit < unit_count stream.now }
    ensures { result.now ≡ kept_by stream.now unit draw }
{
    if is_kept(stream.len() / SIZE, unit, draw) {
        return &stream[SIZE * unit..SIZE * (unit + 1)];
    }
    &[]
}

/// The units of a stream that the second modulator reads, by one draw for each unit of the stream.
#[tactic(auto, unfolding(crate::specs::Losses::kept_of_first, crate::specs::Draws::after))]
pub fn kept_units(alloc: Global, stream: &[u8], draws: &mut Draws) -> Result<Vec<u8>, OutOfMemory>
    ensures units { IfOk result (λ kept. kept.items ≡ kept_from draws.old stream.now) }
    ensures draws { OnOk result (draws.new ≡ after (unit_count stream.now) draws.old) }
{
    let mut kept = Vec::new(alloc);
    for unit in 0..stream.len() / SIZE {
        kept.extend_from_slice(kept_by(stream, unit, draws.next()))?;
    }
    Ok(kept)
}
