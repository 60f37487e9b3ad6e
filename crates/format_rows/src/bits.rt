// Calls of `bit_slice`.
//
// `crc32 BYTES FIRST LEN`, `crc8 BYTES FIRST LEN`, `prbs COUNT` (bytes of the scrambler's sequence), `blocks N` (its
// bytes 120 N to 120 N + 119), `field BYTES AT WIDTH`, `bytes BYTES FIRST COUNT`, `take BYTES FIRST LEN WIDTH..`,
// `joined A LEN B FIRST AT WIDTH`, and `put ITEM..`, each VALUE/WIDTH or BYTES@FIRST:LEN, into sinks: how many bits,
// what they are with their CRC-32 behind, and what becomes of them where there is room for 46 bytes.
use crate::words::{Words, all_bits, number, part_of, spelled};
use bit_slice::{
    BitBuf, BitReader, BitSink, BitSource, CrcSink, FixedBits, Joined, Prbs, PrbsBlocks, SinkFault,
    crc8, crc32,
};
use std::alloc::{AllocError, Global};

fn checksum_32(alloc: Global, words: &Words<'_>) -> Result<String, AllocError> {
    let bytes = words.bytes(1)?;
    let bits = part_of(bytes.as_slice(), words.number(2), words.number(3));
    format!(in alloc; "{:08x}", crc32(bits))
}

fn checksum_8(alloc: Global, words: &Words<'_>) -> Result<String, AllocError> {
    let bytes = words.bytes(1)?;
    let bits = part_of(bytes.as_slice(), words.number(2), words.number(3));
    format!(in alloc; "{:02x}", crc8(bits))
}

fn sequence(alloc: Global, count: usize) -> Result<String, AllocError> {
    let mut sequence = Prbs::new();
    let mut bytes = Vec::new(alloc);
    for _ in 0..count {
        bytes.push(sequence.next_byte())?;
    }
    spelled(alloc, bytes.as_slice())
}

fn block(alloc: Global, number: usize) -> Result<String, AllocError> {
    let mut blocks = PrbsBlocks::new();
    for _ in 0..number {
        blocks.advance();
    }
    spelled(alloc, blocks.bytes())
}

fn field(alloc: Global, words: &Words<'_>) -> Result<String, AllocError> {
    let bytes = words.bytes(1)?;
    let width = words.number(3).min(64);
    let bits = part_of(bytes.as_slice(), words.number(2), width);
    format!(in alloc; "{:x}", bits.field(0, bits.len().min(64) as u32))
}

fn copied(alloc: Global, words: &Words<'_>) -> Result<String, AllocError> {
    let bytes = words.bytes(1)?;
    let bits = part_of(
        bytes.as_slice(),
        words.number(2),
        8 * words.number(3).min(1000),
    );
    let count = bits.len() / 8;
    let mut out = vec![in alloc; 0; count]?;
    bits.sub(0, 8 * count).copy_bytes(out.as_mut_slice());
    spelled(alloc, out.as_slice())
}

fn taken(alloc: Global, words: &Words<'_>) -> Result<String, AllocError> {
    let bytes = words.bytes(1)?;
    let mut source = BitReader::new(part_of(bytes.as_slice(), words.number(2), words.number(3)));
    let mut told = String::new(alloc);
    for at in 4..words.count() {
        let one = match source.take(words.number(at).min(64) as u32) {
            Ok(value) => format!(in alloc; "{value:x} ")?,
            Err(short) => format!(in alloc; "short-{} ", short.left)?,
        };
        told.push_str(one.as_str())?;
    }
    told.push_str("left")?;
    Ok(told)
}

fn joined(alloc: Global, words: &Words<'_>) -> Result<String, AllocError> {
    let (front, back) = (words.bytes(1)?, words.bytes(3)?);
    let front = part_of(front.as_slice(), 0, words.number(2));
    let bits = Joined::new(front, part_of(back.as_slice(), words.number(4), 1000));
    let (at, width) = (words.number(5), words.number(6).min(64));
    if at > bits.len() || width > bits.len() - at {
        return format!(in alloc; "none");
    }
    format!(in alloc; "{:x}", bits.field(at, width as u32))
}

// The bytes of an item that is no number, and its first bit and its length.
fn item_bits<'a>(item: &'a str) -> (&'a str, usize, usize) {
    let (text, place) = item.split_once('@').unwrap_or((item, "0:0"));
    let (first, len) = place.split_once(':').unwrap_or((place, "0"));
    (text, number(first), number(len))
}

fn put_item<S: BitSink>(alloc: Global, sink: &mut S, item: &str) -> Result<(), SinkFault> {
    if let Some((value, width)) = item.split_once('/') {
        let width = number(width).min(64) as u32;
        let value = value.parse::<u64>().unwrap_or(0);
        let fits = width == 64 || value < 1 << width;
        return if fits { sink.put(value, width) } else { Ok(()) };
    }
    let (text, first, len) = item_bits(item);
    let bytes = match Words::new(alloc, text).and_then(|words| words.bytes(0)) {
        Ok(bytes) => bytes,
        Err(_) => return Err(SinkFault::OutOfMemory),
    };
    sink.put_slice(part_of(bytes.as_slice(), first, len))
}

fn put_items<S: BitSink>(alloc: Global, sink: &mut S, words: &Words<'_>) -> Result<(), SinkFault> {
    for at in 1..words.count() {
        put_item(alloc, sink, words.word(at))?;
    }
    Ok(())
}

// What came of items in a sink that grows, with their CRC-32.
fn grown(alloc: Global, words: &Words<'_>) -> Result<String, AllocError> {
    let mut sink = CrcSink::new(BitBuf::new(alloc));
    if put_items(alloc, &mut sink, words).is_err() {
        return Err(AllocError);
    }
    match sink.finish() {
        Ok(inner) => {
            let len = inner.as_slice().len();
            let bytes = spelled(alloc, inner.into_bytes().as_slice())?;
            format!(in alloc; "{len} bits {bytes}")
        }
        Err(_) => Err(AllocError),
    }
}

fn put(alloc: Global, words: &Words<'_>) -> Result<String, AllocError> {
    let grown = grown(alloc, words)?;
    let mut fixed = FixedBits::<46>::new();
    match put_items(alloc, &mut fixed, words) {
        Ok(()) => format!(in alloc; "{grown}; in 46 bytes {}", fixed.as_slice().len()),
        Err(fault) => format!(in alloc; "{grown}; in 46 bytes {fault:?}"),
    }
}

/// What a call answers.
pub(crate) fn answer(alloc: Global, words: &Words<'_>) -> Result<String, AllocError> {
    match words.verb() {
        "crc32" => checksum_32(alloc, words),
        "crc8" => checksum_8(alloc, words),
        "prbs" => sequence(alloc, words.number(1)),
        "blocks" => block(alloc, words.number(1)),
        "field" => field(alloc, words),
        "bytes" => copied(alloc, words),
        "take" => taken(alloc, words),
        "joined" => joined(alloc, words),
        _ => put(alloc, words),
    }
}
