// What two streams have of a frame.
ghost use Rattle.std.specs.Prelude.{◌≡◌};
ghost use Rattle.compare_run.specs.Runs.{kind as kind_of, is_one as is_one_by, is_same as is_same_by};
ghost use Rattle.compare_run.specs.Runs.{is_differing as differs_by};

/// The first part in which two frames that both send differ.
#[derive(Clone, Copy, Debug, PartialEq, Eq)]
pub enum Place {
    /// L1 signalling.
    L1,
    /// A block, by its number, from 0, in the interleaving frame of its PLP that the frame carries.
    Block { plp_id: u8, number: u32 },
}

/// The first block of a PLP that two frames do not have the same.
#[derive(Clone, Copy, Debug, PartialEq, Eq)]
pub struct Other {
    /// Its number, from 0, in the interleaving frame of the PLP that the frames carry.
    pub number: u32,
    /// One of them has no such block: they differ in how many they have, and those that both have are the same.
    pub is_end: bool,
}

/// What two streams, A and B, have of a frame.
#[derive(Clone, Copy, Debug, PartialEq, Eq)]
pub enum Answer {
    /// Both send it, and the same: L1 and all blocks that it carries.
    Same,
    /// It is muted in A, and B sends it.
    MutedA,
    /// It is muted in B, and A sends it.
    MutedB,
    /// It is muted in both.
    MutedBoth,
    /// A has it, sent or muted, and it is before or behind the run of B.
    OnlyA,
    /// B has it, sent or muted, and it is before or behind the run of A.
    OnlyB,
    /// Both send it, and not the same.
    Differs { at: Place },
}

/// What one stream has of a frame.
#[derive(Clone, Copy, Debug, PartialEq, Eq)]
pub enum Side {
    /// Nothing: the frame is before or behind the stream's run.
    Absent,
    /// It is muted.
    Muted,
    /// It is sent.
    Whole,
}

// The answer of frames that differ, by number.
const DIFFERS: u8 = 6;

impl Answer {
    // The answers by number.
    fn kind(self) -> u8
        ensures { result ≡ kind_of self }
    {
        match self {
            Answer::Same => 0,
            Answer::MutedA => 1,
            Answer::MutedB => 2,
            Answer::MutedBoth => 3,
            Answer::OnlyA => 4,
            Answer::OnlyB => 5,
            Answer::Differs { .. } => DIFFERS,
        }
    }

    /// Whether both streams send the frame, and the same.
    pub fn is_same(self) -> bool
        ensures { result ≡ is_same_by self }
    {
        self.kind() == 0
    }

    /// Whether both send it, and not the same.
    pub fn is_differing(self) -> bool
        ensures { result ≡ differs_by self }
    {
        self.kind() == DIFFERS
    }

    /// Whether frames with this answer and with the other one are told together.
    pub fn is_one(self, other: Answer) -> bool
        ensures { result ≡ is_one_by self other }
    {
        self.kind() == other.kind() && self.kind() < DIFFERS
    }
}
