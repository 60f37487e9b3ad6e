// Why a run did not come to its end.
use bit_slice::OutOfMemory;
use thiserror::Error;

/// Why a run did not come to the end of its machine. Inputs are counted from 0.
#[derive(Clone, Copy, Debug, PartialEq, Eq, Error)]
pub enum RunFault {
    /// This input gave 2^40 bytes.
    #[error("input {input} is too long")]
    TooLong { input: usize },
    /// This input could not be opened or read.
    #[error("input {input} could not be read")]
    ReadFault { input: usize },
    /// The output could not be created or written.
    #[error("the output could not be written")]
    WriteFault,
}

/// Why a run is no success: by a cause of its machine, or by one that all runs share.
#[derive(Clone, Copy, Debug, PartialEq, Eq, Error)]
pub enum RunStop<E> {
    /// The machine came to its end, which is a refusal.
    #[error("what was read is refused")]
    Refused(E),
    /// The machine did not come to its end.
    #[error(transparent)]
    Files(RunFault),
    /// No memory was found, and nothing was done.
    #[error("out of memory")]
    OutOfMemory,
}

impl<E> From<RunFault> for RunStop<E> {
    ghost use Rattle.std.specs.Prelude.{◌≡◌};
    ghost use Rattle.file_run.specs.declared.stop.RunStop.TheVariants.{Files};

    ghost from_gives = { λ fault e. e ≡ Files fault };

    fn from(fault: RunFault) -> RunStop<E> {
        RunStop::Files(fault)
    }
}

impl<E> From<OutOfMemory> for RunStop<E> {
    ghost use Rattle.std.specs.Prelude.{◌≡◌};
    ghost use Rattle.file_run.specs.declared.stop.RunStop.TheVariants.{OutOfMemory};

    ghost from_gives = { λ _ e. e ≡ OutOfMemory };

    fn from(_error: OutOfMemory) -> RunStop<E> {
        RunStop::OutOfMemory
    }
}
