// A machine between files.
ghost use Rattle.std.specs.Prelude.{◌≡◌, ◌<◌, ◌≤◌, ◌++◌, ◌∷◌, ℕ, List, [], length, take};
ghost use Rattle.file_run.specs.Events.{Event, Fed, Ended, Gave};
ghost use Rattle.file_run.specs.Steps.{Suffices, FallsShort, HasCome, HasRoom, IsWanted};
ghost use Rattle.file_run.specs.declared.machine.Step.TheVariants.{Give};

use ports::Desk;

/// There is room for so many bytes whenever a machine gives.
pub const PIECE: usize = 4_096;

/// How many bytes of an input wait at most, of a command that looks at each as it comes.
pub const AHEAD: u64 = 65_536;

/// What a machine does next.
#[derive(Clone, Copy, Debug, PartialEq, Eq)]
pub enum Step {
    /// It wants at least so many bytes of this input, counted from 0, or its end, and no more than `most` are to wait
    /// for it.
    Read {
        input: usize,
        least: usize,
        most: u64,
    },
    /// It gives bytes, or none and goes on.
    Give,
    /// It has come to its end.
    End,
}

/// A machine that is fed with the bytes of some inputs, in any cutting, and gives the bytes of one output. It knows of
/// no file, and of a desk only in `note`, which changes nothing. No call fails: a machine takes also what it cannot
/// use, comes to its end, and its owner asks it then how it ended. So it takes no memory in its calls, or ends for want
/// of it.
pub trait Machine {
    ghost use Rattle.file_run.specs.declared.machine.Step.{Step};

    /// The first, to which this was done in turn, is the second.
    ghost Becomes: { Self → List Event → Self → Type 0 };

    /// The number of inputs.
    ghost inputs: { Self → ℕ };

    /// What it does next.
    ghost next: { Self → Step };

    /// It gives no more often before it wants bytes.
    ghost left: { Self → ℕ };

    /// How far an input may have been read, in bytes.
    ghost reach: { Self → ℕ → ℕ };

    /// What it does next.
    fn step(&self) -> Step
        ensures next { result ≡ next self.now }
        ensures wanted { (start : Self) (events : List Event) → Becomes start events self.now
            → IsWanted (inputs start) events (reach self.now) result };

    /// Takes bytes of the input that it wants from the front of these: how many.
    fn feed(&mut self, input: usize, bytes: &[u8]) -> usize
        requires wanted { Suffices (next self.old) input (length bytes.now) }
        requires room { HasRoom Becomes self.old input (length bytes.now) }
        ensures some { (0 < result) × (result ≤ length bytes.now) }
        ensures becomes { (start : Self) (events : List Event) → Becomes start events self.old
            → Becomes start (events ++ Fed input (take result bytes.now) ∷ []) self.new }
        ensures reach { (other : ℕ) → reach self.old other ≤ reach self.new other };

    /// The input that it wants has ended behind these bytes, which are fewer than it wants.
    fn end_input(&mut self, input: usize, bytes: &[u8])
        requires wanted { FallsShort (next self.old) input (length bytes.now) }
        requires room { HasRoom Becomes self.old input (length bytes.now) }
        ensures becomes { (start : Self) (events : List Event) → Becomes start events self.old
            → Becomes start (events ++ Ended input bytes.now ∷ []) self.new }
        ensures reach { (other : ℕ) → reach self.old other ≤ reach self.new other };

    /// Gives the next bytes, to the front of these: how many.
    fn give(&mut self, out: &mut [u8]) -> usize
        requires gives { next self.old ≡ Give }
        requires came { ∥ HasCome Becomes self.old ∥₁ }
        requires room { PIECE ≤ length out.old }
        ensures count { result ≤ length out.old }
        ensures becomes { (start : Self) (events : List Event) → Becomes start events self.old
            → Becomes start (events ++ Gave (take result out.new) ∷ []) self.new }
        ensures left { left self.new < left self.old }
        ensures reach { (other : ℕ) → reach self.old other ≤ reach self.new other };

    /// Notes for people what it met so far, before an input is waited for and behind the end. Nothing changes.
    fn note<D: Desk>(&self, _desk: &mut D)
        ensures { D.state _desk.new ≡ D.state _desk.old }
    {}
}

/// A machine that tells, at its end, what came of its run: what was done, or why it refuses what it was fed.
pub trait Ending: Machine {
    ghost use Rattle.std.specs.declared.result.Result.{Result};
    ghost use Rattle.file_run.specs.declared.machine.Step.TheVariants.{End};

    /// What is told of a run that is a success.
    type Ran;

    /// Why a run is none.
    type Stop;

    /// What came of its run.
    ghost ending: { Self → Result Self.Ran Self.Stop };

    /// What came of its run.
    fn ending(&self) -> Result<Self::Ran, Self::Stop>
        requires ended { Self.next self.now ≡ End }
        requires came { HasCome Self.Becomes self.now }
        ensures { result ≡ ending self.now };
}

/// A machine that does a work: what it tells and gives is right by the bytes of its inputs, however it is stopped.
pub trait Working: Ending {
    ghost use Rattle.file_run.specs.Work.{Work, DoesWork};

    /// What it does, by what it is before anything is done to it.
    ghost work: { Self → Work Self.Ran Self.Stop };

    /// It does so. Nothing is done.
    fn work_law(&self)
        ensures { (start : Self) → DoesWork (work start) (Self.inputs start) Self.reach Self.next (Self.Becomes start)
            Self.ending };
}
