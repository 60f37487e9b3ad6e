// The packets of a stream again.
ghost use Rattle.std.specs.Prelude.{◌≡◌};
ghost use Rattle.common_plp.specs.Shared.{joined_packet};

use ts_packet::TsPacket;

/// The packet of a stream in a slot, from those of the common PLP of its group and of its own PLP: its own, if that is
/// not null, else the common one, if that is not null, else the canonical null packet.
pub fn join(common: &TsPacket, own: &TsPacket) -> TsPacket
    ensures { result ≡ joined_packet common.now own.now }
{
    if !own.is_null() {
        *own
    } else if !common.is_null() {
        *common
    } else {
        TsPacket::canonical()
    }
}
