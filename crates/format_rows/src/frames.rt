// Calls of `bb_frame`.
//
// `baseband BYTES` is what stands there, `written MATYPE-1 MATYPE-2 ISSY SYNCD KBCH BYTES` a frame with this data
// field, and `scramble BYTES` these bytes scrambled.
ghost use Rattle.std.specs.Prelude.{◌≡◌, ◌<◌, ◌≤◌, ◌+◌, ◌%◌, ◌^◌, length, IsTrue};
ghost use Rattle.bb_frame.specs.BasebandFrame.{Describes};
ghost use Rattle.bb_frame.specs.declared.header.TheConstants.{HEADER_BITS};

use crate::words::{Words, all_bits, number_8, number_16, number_32, spelled};
use bb_frame::{HEADER_BITS, Header, NO_START, read_frame, scramble, write_frame};
use bit_slice::{BitBuf, BitSlice};
use std::alloc::{AllocError, Global};

fn read(alloc: Global, bytes: &[u8]) -> Result<String, AllocError> {
    let bits = all_bits(bytes);
    if bits.len() < HEADER_BITS {
        return format!(in alloc; "no header");
    }
    match read_frame(bits) {
        Ok(view) => {
            let head = &view.header;
            format!(in alloc;
                "matype={},{} issy={} dfl={} syncd={}",
                head.matype1, head.matype2, head.issy, head.dfl, head.syncd
            )
        }
        Err(fault) => format!(in alloc; "why={}", fault as u8),
    }
}

fn header_of(words: &Words<'_>, len: usize) -> Header {
    Header {
        matype1: number_8(words.word(1)),
        matype2: number_8(words.word(2)),
        issy: number_32(words.word(3)),
        dfl: len.min(65_528) as u16,
        syncd: number_16(words.word(4)),
    }
}

// Whether a header goes with a data field of so many bits, in a frame of KBCH bits.
fn goes_with(header: &Header, field: &BitSlice<'_>, kbch: u32) -> bool
    ensures issy { IsTrue result → header.now.issy < 2 ^ 24 }
    ensures describes { IsTrue result → Describes header.now field.now }
    ensures inside { IsTrue result → HEADER_BITS + length field.now ≤ kbch }
    ensures bytes { IsTrue result → kbch % 8 ≡ 0 }
{
    let starts = header.syncd % 8 == 0 && usize::from(header.syncd) < field.len();
    usize::from(header.dfl) == field.len()
        && field.len() % 8 == 0
        && (header.syncd == NO_START || starts)
        && header.issy < 1 << 24
        && HEADER_BITS + field.len() <= kbch as usize
        && kbch % 8 == 0
}

fn written(alloc: Global, words: &Words<'_>) -> Result<String, AllocError> {
    let bytes = words.bytes(6)?;
    let field = all_bits(bytes.as_slice());
    let header = header_of(words, field.len());
    let kbch = number_32(words.word(5)).min(60_000);
    if !goes_with(&header, &field, kbch) {
        return format!(in alloc; "none");
    }
    let mut sink = BitBuf::new(alloc);
    match write_frame(&mut sink, &header, field, kbch) {
        Ok(()) => spelled(alloc, sink.into_bytes().as_slice()),
        Err(_) => Err(AllocError),
    }
}

fn scrambled(alloc: Global, words: &Words<'_>) -> Result<String, AllocError> {
    let mut bytes = words.bytes(1)?;
    scramble(bytes.as_mut_slice());
    spelled(alloc, bytes.as_slice())
}

/// What a call answers.
pub(crate) fn answer(alloc: Global, words: &Words<'_>) -> Result<String, AllocError> {
    match words.verb() {
        "baseband" => read(alloc, words.bytes(1)?.as_slice()),
        "written" => written(alloc, words),
        _ => scrambled(alloc, words),
    }
}
