// Where the bytes of a run go.
ghost use Rattle.std.specs.Prelude.{◌≢◌, [], OnOk, OnErr};
ghost use Rattle.ports.specs.Counts.{MayFailWriting};
ghost use Rattle.ports.specs.Desk.{Keeps};
ghost use Rattle.file_run.specs.Saying.{SaysPage};
ghost use Rattle.file_run.specs.Sink.{IsOpen, Puts, PutsFront};

use crate::writing::write_all;
use ports::{Desk, DeskFault};

/// Where the bytes of a run go.
#[derive(Clone, Copy, Debug)]
pub enum Output<'a> {
    /// Into the file of this name, which is created.
    File(&'a str),
    /// To standard output.
    Standard,
}

/// An output that was begun.
#[derive(Clone, Copy, Debug, PartialEq, Eq)]
pub enum OpenOutput {
    /// The file of this handle.
    File(u32),
    /// Standard output.
    Standard,
}

/// Says these bytes, by one call, or nothing if there are none.
pub fn say_all<D: Desk>(desk: &mut D, bytes: &[u8]) -> Result<(), DeskFault>
    ensures ok { OnOk result (SaysPage (D.state desk.old) (D.state desk.new) bytes.now) }
    ensures err { OnErr result (Keeps (D.state desk.old) (D.state desk.new)) }
    ensures some { OnErr result (bytes.now ≢ []) }
    ensures counts { MayFailWriting (D.state desk.old).counts (D.state desk.new).counts result }
{
    if bytes.is_empty() {
        return Ok(());
    }
    desk.say(bytes)
}

impl OpenOutput {
    /// Puts all of a piece behind what went out.
    pub fn put<D: Desk>(self, desk: &mut D, piece: &[u8]) -> Result<(), DeskFault>
        requires { IsOpen self (D.state desk.old) }
        ensures ok { OnOk result (Puts self (D.state desk.old) (D.state desk.new) piece.now) }
        ensures err { OnErr result (PutsFront self (D.state desk.old) (D.state desk.new) piece.now) }
        ensures counts { MayFailWriting (D.state desk.old).counts (D.state desk.new).counts result }
    {
        match self {
            OpenOutput::File(handle) => write_all(desk, handle, piece),
            OpenOutput::Standard => say_all(desk, piece),
        }
    }
}
