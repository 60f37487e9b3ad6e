// `trial SEED FRAMES`.
ghost use Rattle.std.specs.Prelude.{◌≡◌};
ghost use Rattle.site_top.specs.Outcomes.{trial_outcome};
ghost use Rattle.site_top.specs.TrialCommand.{Tries};

use crate::config_commands::tell;
use crate::outcome::Outcome;
use ports::Desk;
use std::alloc::Global;
use trial_run::{TrialStop, trial_plan, trial_text};

// How a trial ends that does not come to its end.
fn outcome_of(stop: TrialStop) -> Outcome
    ensures { result ≡ trial_outcome stop }
{
    match stop {
        TrialStop::OutOfMemory => Outcome::OutOfMemory,
        TrialStop::Broken => Outcome::TrialFault,
    }
}

/// Tries a whole network, for so many frames, with inputs that are drawn from a number, and says what came of it. No
/// file is opened.
pub fn trial<D: Desk>(alloc: Global, seed: u64, frames: u32, desk: &mut D) -> Outcome
    ensures { Tries (D.state desk.old) (D.state desk.new) seed frames result }
{
    let plan = match trial_plan(alloc) {
        Ok(plan) => plan,
        Err(stop) => return outcome_of(stop),
    };
    match trial_text(alloc, &plan, frames, seed) {
        Ok(page) => tell(desk, page.as_bytes()),
        Err(stop) => outcome_of(stop),
    }
}
