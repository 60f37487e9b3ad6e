// Reading a frame.
ghost use Rattle.std.specs.Prelude.{◌≡◌, ◌↔◌, ◌+◌, ◌≤◌, IsTrue, length, IfOk, IfErr, Ok, List, Bool};
ghost use Rattle.bb_frame.specs.declared.header.Header.{Header};
ghost use Rattle.bb_frame.specs.BasebandFrame.{Spells, Refuses, IsPlace};
ghost use Rattle.bb_frame.specs.Reading.{HasFields, IsRead};

use crate::header::MODE;
use crate::{BbFault, HEADER_BITS, Header, NO_START};
use bit_slice::{BitSlice, crc8, crc8_law};

/// A frame that stands in some bits.
#[derive(Drop)]
pub struct BbView<'a> {
    pub header: Header,
    /// The data field, DFL bits.
    pub field: BitSlice<'a>,
}

// The fields of the header at the front.
fn header_of(bits: &BitSlice<'_>) -> Header
    requires { HEADER_BITS ≤ length bits.now }
    ensures { HasFields bits.now result }
{
    Header {
        matype1: bits.field(0, 8) as u8,
        matype2: bits.field(8, 8) as u8,
        issy: bits.field(16, 16) as u32 * 256 + bits.field(48, 8) as u32,
        dfl: bits.field(32, 16) as u16,
        syncd: bits.field(56, 16) as u16,
    }
}

// Whether SYNCD goes with DFL.
fn is_place(syncd: u16, dfl: u16) -> bool
    ensures { IsTrue result ↔ IsPlace syncd dfl }
{
    syncd == NO_START || syncd % 8 == 0 && syncd < dfl
}

fn parse<'a>(bits: &BitSlice<'a>) -> Result<BbView<'a>, BbFault>
    requires { HEADER_BITS ≤ length bits.now }
    ensures ok { IfOk result (λ v. IsRead bits.now v.header v.field) }
    ensures err { IfErr result (Refuses bits.now) }
{
    let told = bits.field(72, 8) as u8;
    let counted = crc8(bits.sub(0, 72));
    if told == counted {
        return Err(BbFault::Mode);
    }
    if told != counted ^ MODE {
        return Err(BbFault::Crc);
    }
    let header = header_of(bits);
    if header.dfl % 8 != 0 || HEADER_BITS + header.dfl as usize > bits.len() {
        return Err(BbFault::Length);
    }
    if !is_place(header.syncd, header.dfl) {
        return Err(BbFault::Sync);
    }
    let field = bits.sub(HEADER_BITS, header.dfl as usize);
    Ok(BbView { header, field })
}

/// The frame that the bits are. Padding is not looked at.
///
/// Bits that are no frame have one refusal, the first that holds of Mode, Crc, Length and Sync.
pub fn read_frame<'a>(bits: BitSlice<'a>) -> Result<BbView<'a>, BbFault>
    requires { HEADER_BITS ≤ length bits }
    ensures ok { IfOk result (λ v. Spells v.header v.field bits.entry) }
    // If the bits are a frame, it is read.
    ensures every { (h : Header) (body : List Bool) → Spells h body bits.entry
        → result ≡ Ok (record { header = h; field = body }) }
    ensures err { IfErr result (Refuses bits.entry) }
{
    crc8_law();
    parse(&bits)
}
