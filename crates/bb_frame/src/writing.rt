// Writing a frame.
ghost use Rattle.std.specs.Prelude.{◌≡◌, ◌+◌, ◌-◌, ◌%◌, ◌≤◌, ◌<◌, ◌^◌, length, replicate, false, OnOk, IfErr};
ghost use Rattle.terms.specs.Bits.{bits_of};
ghost use Rattle.bit_slice.specs.Sink.{Puts, Stops};
ghost use Rattle.bb_frame.specs.BasebandFrame.{fields_bits, header_bits, frame_bits, Describes};

use crate::header::MODE;
use crate::{HEADER_BITS, HEADER_BYTES, Header};
use bit_slice::{BitSink, BitSlice, SinkFault, crc8, puts_law, stops_law};

// The bytes of the header but for the last one.
fn field_bytes(header: &Header) -> [u8; 9]
    requires { header.now.issy < 2 ^ 24 }
    ensures { bits_of result ≡ fields_bits header.now }
{
    let [_, high, middle, low] = header.issy.to_be_bytes();
    let [dfl_high, dfl_low] = header.dfl.to_be_bytes();
    let [syncd_high, syncd_low] = header.syncd.to_be_bytes();
    [
        header.matype1,
        header.matype2,
        high,
        middle,
        dfl_high,
        dfl_low,
        low,
        syncd_high,
        syncd_low,
    ]
}

/// The bytes of a header, of which CRC-8 XOR MODE is the last one.
pub fn header_bytes(header: &Header) -> [u8; HEADER_BYTES]
    requires { header.now.issy < 2 ^ 24 }
    ensures { bits_of result ≡ header_bits header.now }
{
    let fields = field_bytes(header);
    let mut bytes = [0; HEADER_BYTES];
    bytes[..9].copy_from_slice(&fields);
    bytes[9] = crc8(BitSlice::whole(&fields)) ^ MODE;
    bytes
}

fn put_header<S: BitSink>(sink: &mut S, header: &Header) -> Result<(), SinkFault>
    requires { header.now.issy < 2 ^ 24 }
    ensures ok { OnOk result (Puts (S.state sink.old) (S.state sink.new) (header_bits header.now)) }
    ensures fault { IfErr result (Stops (S.state sink.old) (S.state sink.new) (header_bits header.now)) }
{
    stops_law();
    sink.put_slice(BitSlice::whole(&header_bytes(header)))
}

fn put_zeros<S: BitSink>(sink: &mut S, count: usize) -> Result<(), SinkFault>
    ensures ok { OnOk result (Puts (S.state sink.old) (S.state sink.new) (replicate count false)) }
    ensures fault { IfErr result (Stops (S.state sink.old) (S.state sink.new) (replicate count false)) }
{
    puts_law();
    stops_law();
    let mut left = count;
    while left > 0 {
        let width = left.min(64);
        sink.put(0, width as u32)?;
        left -= width;
    }
    Ok(())
}

/// Appends a frame of `kbch` bits: the header with its CRC-8, the data field, and zeros. After a fault a part of the
/// frame, from its start, stands in the sink.
pub fn write_frame<S: BitSink>(
    sink: &mut S,
    header: &Header,
    field: BitSlice<'_>,
    kbch: u32,
) -> Result<(), SinkFault>
    requires issy { header.now.issy < 2 ^ 24 }
    requires describes { Describes header.now field }
    requires inside { HEADER_BITS + length field ≤ kbch }
    requires bytes { kbch % 8 ≡ 0 }
    ensures ok { OnOk result (Puts (S.state sink.old) (S.state sink.new) (frame_bits header.now field.entry kbch)) }
    ensures fault { IfErr result (Stops (S.state sink.old) (S.state sink.new)
        (frame_bits header.now field.entry kbch)) }
{
    puts_law();
    stops_law();
    let padding = kbch as usize - HEADER_BITS - field.len();
    put_header(sink, header)?;
    sink.put_slice(field)?;
    put_zeros(sink, padding)
}
