// The outside of a command.
ghost use Rattle.std.specs.Prelude.{◌≡◌, ◌<◌, ◌≤◌, false, length, take, IfOk, OnOk, OnErr};
ghost use Rattle.ports.specs.Counts.{MayFailReading, MayFailWriting, MayFailAtLast};
ghost use Rattle.ports.specs.Desk.{State, Keeps, Opens, Creates, FailsToCreate, Reads, Writes, Says, SaysLast};
ghost use Rattle.ports.specs.Desk.{has_run_out};

use crate::{DeskFault, Note};

/// The outside of a command: named files, and standard output.
///
/// After a fault all is as before but the count of its kind, and the kind of the first fault if there was none before,
/// of which `Counts` tells. Of a file that could not be created nothing is known then. A call that is Ok changes
/// neither.
pub trait Desk {
    /// What the desk holds and which texts were said, if it tells; the place of each handle for reading and whether it
    /// ended, and the number of those for writing; its counts of faults.
    ghost state: { Self → State };

    /// Opens a file and gives a handle at its first byte. An absent name is a fault.
    fn open(&mut self, name: &str) -> Result<u32, DeskFault>
        ensures ok { IfOk result (Opens (state self.old) (state self.new) name.now) }
        ensures err { OnErr result (Keeps (state self.old) (state self.new)) }
        ensures counts { MayFailReading (state self.old).counts (state self.new).counts result };

    /// Reads the next bytes of a file into the front of the buffer. Answers how many, at most as
    /// many as the buffer has room for, and 0 exactly at the end of the file. Behind its end it is
    /// not read again: a terminal gives one end after another, and a file that grows gives more.
    fn read(&mut self, handle: u32, buffer: &mut [u8]) -> Result<usize, DeskFault>
        requires opened { handle < length (state self.old).opened }
        requires going { has_run_out (state self.old) handle ≡ false }
        requires room { 0 < length buffer.old }
        ensures count { IfOk result (λ n. n ≤ length buffer.new) }
        ensures ok { IfOk result (λ n. Reads (state self.old) (state self.new) handle n buffer.new) }
        ensures err { OnErr result (Keeps (state self.old) (state self.new)) }
        ensures counts { MayFailReading (state self.old).counts (state self.new).counts result };

    /// Makes the named file empty, or makes an empty file of that name, and gives a handle for writing to it.
    fn create(&mut self, name: &str) -> Result<u32, DeskFault>
        ensures ok { IfOk result (Creates (state self.old) (state self.new) name.now) }
        ensures err { OnErr result (FailsToCreate (state self.old) (state self.new) name.now) }
        ensures counts { MayFailWriting (state self.old).counts (state self.new).counts result };

    /// Appends bytes from the front of the piece to a file. Answers how many, at least one.
    fn write(&mut self, out: u32, piece: &[u8]) -> Result<usize, DeskFault>
        requires created { out < (state self.old).created }
        requires some { 0 < length piece.now }
        ensures count { IfOk result (λ n. (0 < n) × (n ≤ length piece.now)) }
        ensures ok { IfOk result (λ n. Writes (state self.old) (state self.new) out (take n piece.now)) }
        ensures err { OnErr result (Keeps (state self.old) (state self.new)) }
        ensures counts { MayFailWriting (state self.old).counts (state self.new).counts result };

    /// Appends a text to standard output, by one call.
    fn say(&mut self, text: &[u8]) -> Result<(), DeskFault>
        ensures ok { OnOk result (Says (state self.old) (state self.new) text.now) }
        ensures err { OnErr result (Keeps (state self.old) (state self.new)) }
        ensures counts { MayFailWriting (state self.old).counts (state self.new).counts result };

    /// Appends the last text of a run to standard output. A failure shows in the count of last lines alone.
    fn say_last(&mut self, text: &[u8])
        ensures said { SaysLast (state self.old) (state self.new) text.now }
        ensures counts { MayFailAtLast (state self.old).counts (state self.new).counts };

    /// Takes note, for people, of what a run met. It is no output of the run.
    fn note(&mut self, note: Note)
        ensures { state self.new ≡ state self.old };
}
