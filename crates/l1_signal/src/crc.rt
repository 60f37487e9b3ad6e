// CRC_32 behind what it is counted of.
ghost use Rattle.std.specs.Prelude.{◌≡◌, Ok, Err, OnOk, IfErr};
ghost use Rattle.l1_signal.specs.CrcField.{crc_read, EndsInCrc, RefusesPost};
ghost use Rattle.l1_signal.specs.Fields.{HasGiven};

use crate::L1Fault;
use crate::fields::{Field, put_fields};
use bit_slice::{BitCount, BitSlice, BitSource, CrcSink, crc32, stops_law};

// Reads CRC_32, which is to be the number that was counted.
pub(crate) fn read_crc<'a, R: BitSource<'a>>(source: &mut R, counted: u32) -> Result<(), L1Fault>
    ensures ok { OnOk result (crc_read counted (R.left source.old) ≡ Ok (counted, R.left source.new)) }
    ensures fault { IfErr result (λ e. crc_read counted (R.left source.old) ≡ Err e) }
    ensures given { HasGiven (R.left source.old) (R.left source.new) }
{
    let read = match source.take(32) {
        Ok(read) => read as u32,
        Err(short) => return Err(L1Fault::Short { left: short.left }),
    };
    if read != counted {
        return Err(L1Fault::Crc { read, counted });
    }
    Ok(())
}

/// Whether L1-post ends with the CRC_32 of the bits before it.
pub fn check_post(post: BitSlice<'_>) -> Result<(), L1Fault>
    ensures ok { OnOk result (EndsInCrc post.entry) }
    ensures fault { IfErr result (RefusesPost post.entry) }
{
    let len = post.len();
    if len < 32 {
        return Err(L1Fault::Short { left: len as u64 });
    }
    let read = post.field(len - 32, 32) as u32;
    let counted = crc32(post.sub(0, len - 32));
    if read != counted {
        return Err(L1Fault::Crc { read, counted });
    }
    Ok(())
}
