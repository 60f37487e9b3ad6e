// A transport packet as its bytes.
ghost use Rattle.std.specs.Prelude.{◌≡◌, ◌≤◌, length, take};
ghost use Rattle.ts_packet.specs.Null.{is_null, null_packet};

use crate::header::{field_at, header_of};
use crate::sizes::{SIZE, SYNC};
use std::marker::Model;

// The PID of null packets.
const NULL_PID: u32 = 0x1FFF;

/// The 188 bytes of a transport packet. Nothing is asked of them.
#[derive(Clone, Copy, Debug, PartialEq, Eq)]
pub struct TsPacket {
    bytes: [u8; SIZE],
}

impl Model for TsPacket {
    ghost use Rattle.std.specs.Prelude.{ℕ, List};

    ghost Value = { List ℕ };

    ghost view = { λ p. p.bytes };

    ghost inverse = { λ bytes. record { bytes = bytes } };
}

impl TsPacket {
    /// The packet of these bytes.
    pub fn from_array(bytes: [u8; SIZE]) -> TsPacket
        ensures { result ≡ bytes }
    {
        TsPacket { bytes }
    }

    /// The packet at the front of these bytes, which are at least `SIZE`.
    pub fn front_of(bytes: &[u8]) -> TsPacket
        requires { SIZE ≤ length bytes.now }
        ensures { result ≡ take SIZE bytes.now }
    {
        TsPacket::from_array(*bytes.first_chunk().unwrap())
    }

    /// The bytes of the packet.
    pub fn as_array(&self) -> &[u8; SIZE]
        ensures bytes { result.now ≡ self.now }
        ensures whole { length self.now ≡ SIZE }
    {
        &self.bytes
    }

    /// Whether the packet is a null packet, which its PID alone decides.
    pub fn is_null(&self) -> bool
        ensures { result ≡ is_null self.now }
    {
        field_at(header_of(&self.bytes), 11, 13) == NULL_PID
    }

    /// The canonical null packet: a payload of 184 bytes 0xFF, and a continuity_counter of 0.
    pub fn canonical() -> TsPacket
        ensures { result ≡ null_packet }
    {
        let mut bytes = [0xFF; SIZE];
        bytes[..4].copy_from_slice(&[SYNC, 0x1F, 0xFF, 0x10]);
        TsPacket { bytes }
    }
}
