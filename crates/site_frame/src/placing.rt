// Which frame a record is of.
ghost use Rattle.std.specs.Prelude.{◌≡◌, ℕ, ◌+◌, ◌*◌, ◌<◌, IfSome, IfNone, IfOk, IfErr, Ok, Err};
ghost use Rattle.site_frame.specs.declared.fault.RecordWhy.{RecordWhy};
ghost use Rattle.plp_config.specs.Emission.{FindsFrame};
ghost use Rattle.site_frame.specs.Placing.{IsFrameOf, IsOffGrid, IsPlaced, RefusesPlace};

use crate::fault::RecordWhy;
use plp_config::{MOST_FRAMES, Moment, Plan, emission_law};

// The subseconds that have passed by a moment.
fn passed(seconds: u64, subseconds: u32, second: u32) -> u128
    ensures { result ≡ seconds * second + subseconds }
{
    u128::from(seconds) * u128::from(second) + u128::from(subseconds)
}

// The frame whose emission lies so many frames after the start, if that is a whole number.
fn frame_at(plan: &Plan, moment: &Moment) -> Option<u64>
    ensures some { IfSome result (λ n. (n < MOST_FRAMES) × FindsFrame plan.now moment.now n) }
    ensures none { IfNone result ((n : ℕ) → n < MOST_FRAMES → ¬ (FindsFrame plan.now moment.now n)) }
{
    let config = plan.config();
    let second = config.band.subseconds_per_second();
    if moment.subseconds >= second {
        return None;
    }
    let frame = u128::from(config.ticks) * u128::from(config.band.subseconds_per_tick());
    let origin = passed(config.seconds, config.subseconds, second);
    let by = passed(moment.seconds, moment.subseconds, second);
    if by < origin {
        return None;
    }
    let past = by - origin;
    if frame == 0 || past % frame != 0 {
        return None;
    }
    let count = past / frame;
    if count >= u128::from(MOST_FRAMES) {
        return None;
    }
    Some(count as u64)
}

// The frame that leaves at a moment.
fn frame_of(plan: &Plan, moment: &Moment) -> Option<u64>
    ensures some { IfSome result (IsFrameOf plan.now moment.now) }
    ensures none { IfNone result (IsOffGrid plan.now moment.now) }
{
    emission_law();
    plan.rules_law();
    frame_at(plan, moment)
}

// The frame that leaves at a moment, if it is the one that was expected.
fn place(plan: &Plan, expected: Option<u64>, moment: &Moment) -> Result<u64, RecordWhy>
    ensures ok { IfOk result (IsPlaced plan.now expected moment.now) }
    ensures err { IfErr result (RefusesPlace plan.now expected moment.now) }
{
    let Some(frame) = frame_of(plan, moment) else {
        return Err(RecordWhy::OffGrid);
    };
    match expected {
        None => Ok(frame),
        Some(other) if other == frame => Ok(frame),
        Some(_) => Err(RecordWhy::Order),
    }
}

/// The number of the frame that leaves at a moment, if it is the expected one or none was expected: else `OffGrid`
/// if no frame below 2^31 leaves then, and `Order` if another one was expected.
pub fn place_record(plan: &Plan, expected: Option<u64>, moment: &Moment) -> Result<u64, RecordWhy>
    ensures ok { IfOk result (IsPlaced plan.now expected moment.now) }
    // If a frame is placed, it is told.
    ensures every { (frame : ℕ) → IsPlaced plan.now expected moment.now frame → result ≡ Ok frame }
    ensures err { IfErr result (RefusesPlace plan.now expected moment.now) }
    // If the moment is refused, the refusal is told.
    ensures refused { (why : RecordWhy) → RefusesPlace plan.now expected moment.now why → result ≡ Err why }
{
    emission_law();
    plan.rules_law();
    place(plan, expected, moment)
}
