// Calls of `ts_packet`, `null_delete` and `t2mi_packet`.
//
// `transport BYTES` is the header of a packet of 188 bytes and where its payload begins, `carries PID COUNTER POINTER
// BYTES` a packet that is written with a payload (POINTER is `-` where none begins in it), `null BYTES` whether it is a
// null packet, and `canonical` the null packet. `deletes on|off RUN..` gives runs of null packets with another packet
// behind each, and answers each slot that is kept, with its dnp; `slots FIRST DNP..` finds slots again. `t2mi BYTES` is
// what stands there, and `needed BYTES` how many bytes it wants.
ghost use Rattle.std.specs.Prelude.{◌<◌, ◌^◌, length};

use crate::words::{Words, number_8, spelled};
use null_delete::{Deleter, Inserter};
use std::alloc::{AllocError, Global};
use t2mi_packet::{Body, needed, read as read_t2mi};
use ts_packet::{PAYLOAD, SIZE, TsPacket, read, write_payload};

// The bytes of a transport packet, zeros behind the last.
fn packet_of(bytes: &[u8]) -> [u8; SIZE] {
    let mut packet = [0; SIZE];
    for (place, byte) in packet.iter_mut().zip(bytes) {
        *place = *byte;
    }
    packet
}

fn transport(alloc: Global, bytes: &[u8; SIZE]) -> Result<String, AllocError> {
    match read(bytes) {
        Ok(view) => format!(in alloc;
            "pid={} error={} starts={} scrambling={} counter={} payload={}",
            view.pid(),
            view.error(),
            view.starts(),
            view.scrambling(),
            view.counter(),
            SIZE.saturating_sub(view.payload().len())
        ),
        Err(fault) => format!(in alloc; "{fault:?}"),
    }
}

fn carries(alloc: Global, words: &Words<'_>) -> Result<String, AllocError> {
    let payload = words.bytes(4)?;
    let pointer = words.word(3).parse::<u8>().ok();
    let room = PAYLOAD - usize::from(pointer.is_some());
    if payload.is_empty() || payload.len() > room {
        return format!(in alloc; "none");
    }
    let mut packet = [0; SIZE];
    let (front, back) = payload.as_slice().split_at(payload.len() / 2);
    let (pid, counter) = (words.number(1) % 8192, words.number(2) % 16);
    write_payload(&mut packet, pid as u16, counter as u8, pointer, front, back);
    spelled(alloc, &packet)
}

fn is_null(alloc: Global, bytes: &[u8; SIZE]) -> Result<String, AllocError> {
    format!(in alloc; "{}", TsPacket::from_array(*bytes).is_null())
}

// A packet that is not null.
fn other() -> TsPacket {
    TsPacket::from_array(packet_of(&[0x47, 0x01, 0x00, 0x10]))
}

// Gives a packet to a deleter, and tells its slot and its dnp if it is kept.
fn push_kept(
    alloc: Global,
    deleter: &mut Deleter,
    packet: &TsPacket,
    slot: usize,
    told: &mut String,
) -> Result<(), AllocError> {
    match deleter.push(packet) {
        Some(dnp) => told.push_str(format!(in alloc; "{slot}:{dnp} ")?.as_str()),
        None => Ok(()),
    }
}

fn kept(alloc: Global, words: &Words<'_>) -> Result<String, AllocError> {
    let mut deleter = Deleter::new(words.word(1) == "on");
    let mut told = String::new(alloc);
    let mut slot: usize = 0;
    for at in 2..words.count() {
        for _ in 0..words.number(at) {
            push_kept(alloc, &mut deleter, &TsPacket::canonical(), slot, &mut told)?;
            slot = slot.saturating_add(1);
        }
        push_kept(alloc, &mut deleter, &other(), slot, &mut told)?;
        slot = slot.saturating_add(1);
    }
    told.push_str("of")?;
    Ok(told)
}

fn slots(alloc: Global, words: &Words<'_>) -> Result<String, AllocError> {
    let mut at = words.number(1).min(1 << 30) as u64;
    let mut told = String::new(alloc);
    for place in 2..words.count() {
        if at >= 1 << 50 {
            break;
        }
        at = Inserter::new(at).push(number_8(words.word(place)));
        told.push_str(format!(in alloc; "{at} ")?.as_str())?;
    }
    told.push_str("are")?;
    Ok(told)
}

fn body(alloc: Global, body: &Body<'_>) -> Result<String, AllocError> {
    match body {
        Body::Block {
            frame_idx,
            plp_id,
            first,
            bits,
        } => format!(in alloc;
            "block frame={frame_idx} plp={plp_id} first={first} bits={}",
            bits.len()
        ),
        Body::L1Current {
            frame_idx,
            pre,
            conf,
            dynamic,
            extension,
        } => format!(in alloc;
            "l1 frame={frame_idx} bits={},{},{},{}",
            pre.len(),
            conf.len(),
            dynamic.len(),
            extension.len()
        ),
        Body::Timestamp(stamp) => format!(in alloc;
            "time bw={} seconds={} subseconds={} utco={}",
            stamp.bw, stamp.seconds, stamp.subseconds, stamp.utco
        ),
        Body::Other { packet_type, bits } => format!(in alloc;
            "type={packet_type} bits={}",
            bits.len()
        ),
    }
}

// What stands at the front, of so few bytes that they are bits.
fn front(alloc: Global, bytes: &[u8]) -> Result<String, AllocError>
    requires { length bytes.now < 2 ^ 60 }
{
    match read_t2mi(bytes) {
        Ok((packet, len)) => {
            let body = body(alloc, &packet.body)?;
            format!(in alloc;
                "count={} superframe={} stream={} {body} bytes={len}",
                packet.packet_count, packet.superframe, packet.stream
            )
        }
        Err(fault) => format!(in alloc; "at={} why={}", fault.at, fault.why as u8),
    }
}

fn t2mi(alloc: Global, bytes: &[u8]) -> Result<String, AllocError> {
    front(alloc, &bytes[..bytes.len().min(10_000)])
}

fn wants(alloc: Global, bytes: &[u8]) -> Result<String, AllocError> {
    match needed(&bytes[..bytes.len().min(10_000)]) {
        Some(count) => format!(in alloc; "{count}"),
        None => format!(in alloc; "not known"),
    }
}

fn of_bytes(alloc: Global, verb: &str, bytes: &[u8]) -> Result<String, AllocError> {
    match verb {
        "transport" => transport(alloc, &packet_of(bytes)),
        "null" => is_null(alloc, &packet_of(bytes)),
        "t2mi" => t2mi(alloc, bytes),
        "needed" => wants(alloc, bytes),
        _ => format!(in alloc; "no such call"),
    }
}

/// What a call answers.
pub(crate) fn answer(alloc: Global, words: &Words<'_>) -> Result<String, AllocError> {
    match words.verb() {
        "canonical" => spelled(alloc, TsPacket::canonical().as_array()),
        "carries" => carries(alloc, words),
        "deletes" => kept(alloc, words),
        "slots" => slots(alloc, words),
        verb => of_bytes(alloc, verb, words.bytes(1)?.as_slice()),
    }
}
