// Bytes written to a file.
ghost use Rattle.std.specs.Prelude.{◌<◌, OnOk, OnErr};
ghost use Rattle.ports.specs.Counts.{MayFailWriting};
ghost use Rattle.file_run.specs.Writing.{Appends, AppendsFront};

use ports::{Desk, DeskFault};

/// Writes all of a piece behind what is written to the file of a handle, however few bytes a write takes.
pub fn write_all<D: Desk>(desk: &mut D, out: u32, piece: &[u8]) -> Result<(), DeskFault>
    requires { out < (D.state desk.old).created }
    ensures ok { OnOk result (Appends (D.state desk.old) (D.state desk.new) out piece.now) }
    ensures err { OnErr result (AppendsFront (D.state desk.old) (D.state desk.new) out piece.now) }
    ensures counts { MayFailWriting (D.state desk.old).counts (D.state desk.new).counts result }
{
    let mut done = 0;
    while done < piece.len() {
        done += desk.write(out, &piece[done..])?;
    }
    Ok(())
}
