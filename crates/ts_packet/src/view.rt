// Reading a transport packet.
ghost use Rattle.std.specs.Prelude.{◌≡◌, ◌<◌, ◌≤◌, ◌^◌, length, IfOk, IfErr, IfSome, IfNone};
ghost use Rattle.ts_packet.specs.TransportPacket.{Fields, Spells, IsBadAdaptation, Refuses};
ghost use Rattle.ts_packet.specs.Reading.{place_for, IsRead};

use crate::TsFault;
use crate::header::{field_at, header_of};
use crate::sizes::{PAYLOAD, SIZE, SYNC};
use std::marker::Model;

/// A transport packet that was read: its fields, and its payload. Nothing is copied.
#[derive(Drop)]
pub struct TsView<'a> {
    header: u32,
    payload: &'a [u8],
}

impl<'a> Model for TsView<'a> {
    ghost use Rattle.ts_packet.specs.declared.sizes.TheConstants.{PAYLOAD};
    ghost use Rattle.std.specs.Prelude.{◌≤◌, length};
    ghost use Rattle.terms.specs.Bits.{field};
    ghost use Rattle.ts_packet.specs.TransportPacket.{Fields};
    ghost use Rattle.ts_packet.specs.Reading.{fields_of};

    ghost Value = { Fields };

    ghost view = { λ v. fields_of (field 32 v.header) v.payload.now };

    ghost invariant = { λ v. length v.payload.now ≤ PAYLOAD };
}

impl<'a> TsView<'a> {
    /// The PID, below 8,192.
    pub fn pid(&self) -> u16
        ensures pid { result ≡ self.now.pid }
        ensures small { result < 2 ^ 13 }
    {
        field_at(self.header, 11, 13) as u16
    }

    /// transport_error_indicator.
    pub fn error(&self) -> bool
        ensures { result ≡ self.now.error }
    {
        field_at(self.header, 8, 1) == 1
    }

    /// payload_unit_start_indicator.
    pub fn starts(&self) -> bool
        ensures { result ≡ self.now.starts }
    {
        field_at(self.header, 9, 1) == 1
    }

    /// transport_scrambling_control, below 4.
    pub fn scrambling(&self) -> u8
        ensures scrambling { result ≡ self.now.scrambling }
        ensures small { result < 2 ^ 2 }
    {
        field_at(self.header, 24, 2) as u8
    }

    /// continuity_counter, below 16.
    pub fn counter(&self) -> u8
        ensures counter { result ≡ self.now.counter }
        ensures small { result < 2 ^ 4 }
    {
        field_at(self.header, 28, 4) as u8
    }

    /// The bytes of the payload: none if there is an adaptation field alone.
    pub fn payload(&self) -> &'a [u8]
        ensures payload { result.now ≡ self.now.payload }
        ensures short { length result.now ≤ PAYLOAD }
    {
        self.payload
    }
}

// Where the payload begins, or nothing if the adaptation field is bad.
fn payload_place(control: u32, len: u8) -> Option<usize>
    requires { control < 4 }
    ensures some { IfSome result (λ place. (¬ (IsBadAdaptation control len)) × (place ≡ place_for control len)) }
    ensures none { IfNone result (IsBadAdaptation control len) }
    ensures inside { IfSome result (λ place. (4 ≤ place) × (place ≤ SIZE)) }
{
    match control {
        1 => Some(4),
        2 if len == 183 => Some(SIZE),
        3 if len <= 182 => Some(5 + usize::from(len)),
        _ => None,
    }
}

// Reads a packet place by place.
fn parse(bytes: &[u8; SIZE]) -> Result<TsView<'_>, TsFault>
    ensures ok { IfOk result (IsRead bytes.now) }
    ensures err { IfErr result (Refuses bytes.now) }
{
    if bytes[0] != SYNC {
        return Err(TsFault::NoSync);
    }
    let header = header_of(bytes);
    match payload_place(field_at(header, 26, 2), bytes[4]) {
        Some(place) => Ok(TsView {
            header,
            payload: &bytes[place..],
        }),
        None => Err(TsFault::BadAdaptation),
    }
}

/// The transport packet that the bytes are, or the first refusal of [`TsFault`] that holds.
pub fn read(bytes: &[u8; SIZE]) -> Result<TsView<'_>, TsFault>
    ensures ok { IfOk result (λ f. Spells f bytes.now) }
    // If the bytes are a packet, it is read.
    ensures every { (f : Fields) → Spells f bytes.now → result ≡ Ok f }
    ensures err { IfErr result (Refuses bytes.now) }
    // If they are refused, the refusal is told.
    ensures refused { (fault : TsFault) → Refuses bytes.now fault → result ≡ Err fault }
{
    parse(bytes)
}
