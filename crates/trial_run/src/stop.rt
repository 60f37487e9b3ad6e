// Why a trial has nothing to tell.
use bit_slice::OutOfMemory;
use file_run::{RunFault, RunStop};
use std::alloc::AllocFailed;
use thiserror::Error;

/// Why a trial has nothing to tell.
#[derive(Clone, Copy, Debug, PartialEq, Eq, Error)]
pub enum TrialStop {
    /// No memory was found.
    #[error("out of memory")]
    OutOfMemory,
    /// A run inside the trial ended otherwise than it must.
    #[error("a run of the trial ended otherwise than it must")]
    Broken,
}

impl<T: Drop> From<AllocFailed<T>> for TrialStop {
    ghost use Rattle.std.specs.Prelude.{◌≡◌};
    ghost use Rattle.trial_run.specs.declared.stop.TrialStop.TheVariants.{OutOfMemory};

    ghost from_gives = { λ _ e. e ≡ OutOfMemory };

    fn from(_error: AllocFailed<T>) -> TrialStop {
        TrialStop::OutOfMemory
    }
}

impl From<OutOfMemory> for TrialStop {
    ghost use Rattle.std.specs.Prelude.{◌≡◌};
    ghost use Rattle.trial_run.specs.declared.stop.TrialStop.TheVariants.{OutOfMemory};

    ghost from_gives = { λ _ e. e ≡ OutOfMemory };

    fn from(_error: OutOfMemory) -> TrialStop {
        TrialStop::OutOfMemory
    }
}

// By what stopped one of the commands' own runs.
impl<E: Copy> From<RunStop<E>> for TrialStop {
    ghost use Rattle.std.specs.Prelude.{◌≡◌};
    ghost use Rattle.trial_run.specs.Stops.{told_of};

    ghost from_gives = { λ stop e. e ≡ told_of stop };

    fn from(stop: RunStop<E>) -> TrialStop {
        match stop {
            RunStop::Refused(_) | RunStop::Files(RunFault::TooLong { .. }) => TrialStop::Broken,
            // A desk in memory of which no call is made to fail lacks memory if one does.
            RunStop::OutOfMemory | RunStop::Files(_) => TrialStop::OutOfMemory,
        }
    }
}
