// L1 signalling, by a plan. A KIND is `pre` (L1-pre without its CRC_32), `conf` or `dyn` (the parts of L1-post).
//
// `pre NETWORK`, `conf NETWORK` and `dyn NETWORK FRAME COUNTS` are the bytes that are written. `read NETWORK KIND BYTES
// LEN` reads so many bits, and answers the bytes that are written of what was read; of the kind `crc` they are L1-pre
// with its CRC_32. `turned NETWORK KIND BYTES LEN` does so with each bit turned in turn, and answers a word for each:
// `t` (it comes back turned), `i` (as it was: it is ignored), the number of the field that is refused, or `s` (the
// sizes do not go together). `post NETWORK BYTES FIRST LEN` tests the CRC_32 of an L1-post, and `knows NETWORK BYTES
// LEN` whether bits are the configurable part of the network.
ghost use Rattle.scheduler.specs.Laws.{CountsFit};

use super::maps::{can_have, counts_of};
use crate::words::{Words, part_of, spelled};
use bit_slice::{BitBuf, BitReader, BitSlice, SinkFault};
use l1_signal::{
    L1Dyn, L1Fault, check_post, conf_of, dyn_of, is_conf, pre_of, read_conf, read_dyn, read_pre,
    write_conf, write_dyn, write_pre,
};
use plp_config::Plan;
use scheduler::{Shape, field_law, shape};
use std::alloc::{AllocError, Global};

fn written(alloc: Global, sink: Result<BitBuf, L1Fault>) -> Result<String, AllocError> {
    match sink {
        Ok(sink) => spelled(alloc, sink.into_bytes().as_slice()),
        Err(L1Fault::OutOfMemory) => Err(AllocError),
        Err(fault) => format!(in alloc; "{fault:?}"),
    }
}

fn no_memory(_: SinkFault) -> L1Fault {
    L1Fault::OutOfMemory
}

fn own_pre(alloc: Global, plan: &Plan) -> Result<BitBuf, L1Fault> {
    let mut sink = BitBuf::new(alloc);
    write_pre(&mut sink, &pre_of(plan)).map_err(no_memory)?;
    Ok(sink)
}

fn own_conf(alloc: Global, plan: &Plan) -> Result<BitBuf, L1Fault> {
    let Ok(conf) = conf_of(alloc, plan) else {
        return Err(L1Fault::OutOfMemory);
    };
    let mut sink = BitBuf::new(alloc);
    write_conf(&mut sink, &conf).map_err(no_memory)?;
    Ok(sink)
}

// The dynamic part of a frame in which the PLPs have so many blocks.
fn own_dyn(alloc: Global, plan: &Plan, frame: u64, counts: &[u16]) -> Result<BitBuf, L1Fault>
    requires { CountsFit plan.now counts.now }
{
    let plps = plan.config().plps.len() as u16;
    let (Ok(mut out), Ok(mut dynamic)) = (Shape::open(alloc, plan), L1Dyn::open(alloc, plps)) else {
        return Err(L1Fault::OutOfMemory);
    };
    shape(plan, counts, &mut out);
    field_law();
    dyn_of(plan, frame, &out, &mut dynamic);
    let mut sink = BitBuf::new(alloc);
    write_dyn(&mut sink, &dynamic).map_err(no_memory)?;
    Ok(sink)
}

fn dynamic(alloc: Global, plan: &Plan, words: &Words<'_>) -> Result<String, AllocError> {
    let counts = counts_of(alloc, words.word(3))?;
    if !can_have(plan, counts.as_slice()) {
        return format!(in alloc; "none");
    }
    let frame = words.number(2) as u64;
    written(alloc, own_dyn(alloc, plan, frame, counts.as_slice()))
}

fn again_pre(alloc: Global, bits: BitSlice<'_>, with_crc: bool) -> Result<BitBuf, L1Fault> {
    let pre = read_pre(&mut BitReader::new(bits), with_crc)?;
    let mut sink = BitBuf::new(alloc);
    write_pre(&mut sink, &pre).map_err(no_memory)?;
    Ok(sink)
}

fn again_conf(alloc: Global, plan: &Plan, bits: BitSlice<'_>) -> Result<BitBuf, L1Fault> {
    let conf = read_conf(alloc, &mut BitReader::new(bits), &pre_of(plan))?;
    let mut sink = BitBuf::new(alloc);
    write_conf(&mut sink, &conf).map_err(no_memory)?;
    Ok(sink)
}

fn again_dyn(alloc: Global, plan: &Plan, bits: BitSlice<'_>) -> Result<BitBuf, L1Fault> {
    let plps = plan.config().plps.len() as u16;
    let Ok(mut dynamic) = L1Dyn::open(alloc, plps) else {
        return Err(L1Fault::OutOfMemory);
    };
    read_dyn(&mut BitReader::new(bits), &mut dynamic)?;
    let mut sink = BitBuf::new(alloc);
    write_dyn(&mut sink, &dynamic).map_err(no_memory)?;
    Ok(sink)
}

// A part that is read, and written again.
fn again(alloc: Global, plan: &Plan, kind: &str, bits: BitSlice<'_>) -> Result<BitBuf, L1Fault> {
    match kind {
        "crc" => again_pre(alloc, bits, true),
        "pre" => again_pre(alloc, bits, false),
        "conf" => again_conf(alloc, plan, bits),
        _ => again_dyn(alloc, plan, bits),
    }
}

fn reads(alloc: Global, plan: &Plan, words: &Words<'_>) -> Result<String, AllocError> {
    let bytes = words.bytes(3)?;
    let bits = part_of(bytes.as_slice(), 0, words.number(4));
    written(alloc, again(alloc, plan, words.word(2), bits))
}

fn turn(bytes: &mut [u8], place: usize) {
    if let Some(byte) = bytes.get_mut(place / 8) {
        *byte ^= 0x80 >> (place % 8);
    }
}

// What comes back of a part with a bit turned.
fn came_back(came: &[u8], own: &[u8], turned: &[u8]) -> &'static str {
    if came == turned {
        "t"
    } else if came == own {
        "i"
    } else {
        "other"
    }
}

// What became of a part that is read with a bit turned.
fn became(
    alloc: Global,
    came: Result<BitBuf, L1Fault>,
    own: &[u8],
    turned: &[u8],
) -> Result<String, AllocError> {
    match came {
        Ok(sink) => {
            let bytes = sink.into_bytes();
            format!(in alloc; "{} ", came_back(bytes.as_slice(), own, turned))
        }
        Err(L1Fault::Unsupported { field }) => format!(in alloc; "{field} "),
        Err(L1Fault::Size { .. }) => format!(in alloc; "s "),
        Err(fault) => format!(in alloc; "{fault:?} "),
    }
}

fn turned(alloc: Global, plan: &Plan, words: &Words<'_>) -> Result<String, AllocError> {
    let own = words.bytes(3)?;
    let mut bytes = words.bytes(3)?;
    let mut told = String::new(alloc);
    for place in 0..words.number(4) {
        turn(bytes.as_mut_slice(), place);
        let bits = part_of(bytes.as_slice(), 0, words.number(4));
        let came = again(alloc, plan, words.word(2), bits);
        told.push_str(became(alloc, came, own.as_slice(), bytes.as_slice())?.as_str())?;
        turn(bytes.as_mut_slice(), place);
    }
    told.push_str("all")?;
    Ok(told)
}

fn post(alloc: Global, words: &Words<'_>) -> Result<String, AllocError> {
    let bytes = words.bytes(2)?;
    match check_post(part_of(bytes.as_slice(), words.number(3), words.number(4))) {
        Ok(()) => format!(in alloc; "right"),
        Err(fault) => format!(in alloc; "{fault:?}"),
    }
}

fn knows(alloc: Global, plan: &Plan, words: &Words<'_>) -> Result<String, AllocError> {
    let bytes = words.bytes(2)?;
    let Ok(conf) = conf_of(alloc, plan) else {
        return Err(AllocError);
    };
    let known = is_conf(part_of(bytes.as_slice(), 0, words.number(3)), &conf);
    format!(in alloc; "{known}")
}

/// What a call answers.
pub(crate) fn answer(alloc: Global, plan: &Plan, words: &Words<'_>) -> Result<String, AllocError> {
    match words.verb() {
        "pre" => written(alloc, own_pre(alloc, plan)),
        "conf" => written(alloc, own_conf(alloc, plan)),
        "dyn" => dynamic(alloc, plan, words),
        "read" => reads(alloc, plan, words),
        "turned" => turned(alloc, plan, words),
        "post" => post(alloc, words),
        _ => knows(alloc, plan, words),
    }
}
