// The PID that a unit tells.
ghost use Rattle.std.specs.Prelude.{◌≡◌};
ghost use Rattle.ts_packet.specs.FieldsIn.{fields_in};
ghost use Rattle.t2mi_stream.specs.FirstPid.{pid_of, TellsNoneOn, PacketsBehind, NoPackets};

use crate::skipping::skip_law;
use ts_packet::{SIZE, TsPacket, fields_told_law, null_by_pid_law, read};

/// The PID that a unit tells: that of a transport packet that has a payload and is not null, whatever its error
/// indicator and its scrambling.
pub fn unit_pid(unit: [u8; SIZE]) -> Option<u16>
    ensures { result ≡ pid_of (fields_in unit) }
{
    fields_told_law();
    null_by_pid_law();
    let unit = TsPacket::from_array(unit);
    let Ok(packet) = read(unit.as_array()) else {
        return None;
    };
    if packet.payload().is_empty() || unit.is_null() {
        return None;
    }
    Some(packet.pid())
}

/// What the units of a file come to that tell no PID.
pub fn first_pid_law()
    ensures on { TellsNoneOn }
    ensures behind { PacketsBehind }
    ensures none { NoPackets }
{
    skip_law();
}
