// How a run ends.
ghost use Rattle.std.specs.Prelude.{◌≡◌};
ghost use Rattle.site_top.specs.Outcomes.{file_outcome, status_of};

use file_run::{ConfigCause, LONGEST_FILE, RunFault};
use site_frame::RecordWhy;
use t2mi_packet::PacketWhy;

/// How a run ended.
#[derive(Clone, Copy, Debug, PartialEq, Eq)]
pub enum Outcome {
    /// All input was read to its end, and all output was written.
    Done,
    /// The words are no command.
    Usage,
    /// There is not one input for each PLP: so many of each.
    WrongInputs {
        plps: usize,
        inputs: usize,
    },
    /// A file gives no configuration that satisfies the rules.
    ConfigRefused {
        cause: ConfigCause,
    },
    /// A capacity test fails, at this place first if it is one of the PLPs; what it needs there, and
    /// what there is.
    CapacityRefused {
        test: u8,
        plp: Option<u8>,
        need: u64,
        have: u64,
    },
    /// This packet of this input, both counted from 0, does not begin with the sync byte, or the input ends inside it.
    /// No bad packet is met in an earlier frame, or in the same frame in an earlier input; of `common gateway`, in the
    /// same frame in an earlier group, or in the same group in an earlier slot, or in the same slot in an earlier
    /// input.
    InputRefused {
        input: u8,
        packet: u64,
    },
    /// The input was read to its end, and no superframe was found to begin with; of `mend`, no frame is whole in the
    /// inputs together.
    NoSuperframe,
    /// No record begins where this one must, counted from 0, or it is not of the frame that is expected there.
    RecordRefused {
        number: u64,
        why: RecordWhy,
    },
    /// No PLP of the configuration has this identifier, or of `common receive` a common one has it.
    UnknownPlp {
        plp_id: u8,
    },
    /// A file gave as many bytes as no file may have, or a frame comes of which none may have the number; `count` is
    /// that number.
    TooLong {
        count: u64,
    },
    /// No packet begins at byte `at` of the file, counted from 0, where one must.
    PacketRefused {
        at: u64,
        why: PacketWhy,
    },
    /// This frame is the first that two streams both send and that is not the same in both.
    Differs {
        frame: u64,
    },
    /// A file could not be opened or read.
    ReadFault,
    /// A file could not be created or written, or standard output did not take a text.
    WriteFault,
    /// No memory was found.
    OutOfMemory,
    /// A run inside a trial ended otherwise than it must: the program has a defect, or the losses that were drawn left
    /// nothing.
    TrialFault,
}

impl Outcome {
    /// The status that the program ends with.
    pub fn status(&self) -> u8
        ensures { result ≡ status_of self.now }
    {
        match self {
            Outcome::Done => 0,
            Outcome::Usage | Outcome::WrongInputs { .. } => 2,
            Outcome::ConfigRefused { .. } => 3,
            Outcome::CapacityRefused { .. } => 4,
            Outcome::InputRefused { .. } => 5,
            Outcome::NoSuperframe => 6,
            Outcome::RecordRefused { .. } => 7,
            Outcome::UnknownPlp { .. } => 8,
            Outcome::TooLong { .. } => 9,
            Outcome::PacketRefused { .. } => 10,
            Outcome::Differs { .. } => 12,
            Outcome::ReadFault => 70,
            Outcome::WriteFault => 71,
            Outcome::OutOfMemory => 72,
            Outcome::TrialFault => 73,
        }
    }
}

/// How a command ends that its files stopped.
pub fn file_outcome(fault: RunFault) -> Outcome
    ensures { result ≡ file_outcome fault }
{
    match fault {
        RunFault::TooLong { .. } => Outcome::TooLong {
            count: LONGEST_FILE,
        },
        RunFault::ReadFault { .. } => Outcome::ReadFault,
        RunFault::WriteFault => Outcome::WriteFault,
    }
}
