// What is said of a file that is refused: where, why, and what it may be.
use crate::config_place::text_of;
use desk_watch::Shown;
use site_frame::RecordWhy;
use site_top::{Outcome, Request};
use std::fmt::{self, Display, Formatter, Write};
use std::fs::{self, Files};
use std::io::{self, Eprint};
use ts_packet::{SIZE, SYNC};

// How many units at the front of a file tell that it is a transport stream.
const UNITS: usize = 3;

// A packet of a transport stream that is none, and whether the file ends inside it, if that is known.
#[derive(Clone, Copy)]
struct BadPacket {
    packet: u64,
    ends: Option<bool>,
}

impl Display for BadPacket {
    fn fmt<W: Write>(&self, f: &mut Formatter<W>) -> fmt::Result {
        let packet = self.packet;
        if self.ends == Some(true) {
            return write!(f, "the file ends inside packet {packet}, counted from 0");
        }
        write!(
            f,
            "packet {packet}, counted from 0, does not begin with the sync byte 0x47"
        )?;
        match self.ends {
            Some(_) => Ok(()),
            None => write!(f, ", or the file ends inside it"),
        }
    }
}

// Whether a file ends inside a packet that is none, or before it. Of a pipe it is not known.
fn ends_inside(rt: &impl Files, name: &str, packet: u64) -> Option<bool> {
    let data = fs::metadata(rt, name).ok()?;
    if data.is_file() {
        Some(data.len() / SIZE as u64 <= packet)
    } else {
        None
    }
}

/// Says that a packet of an input is none.
pub fn say_bad_packet(rt: &(impl Eprint + Files), name: &str, packet: u64) -> io::Result<()> {
    let ends = ends_inside(rt, name, packet);
    eprintln!(rt;
        "{}: {}; OUT holds the units of the frames before; share/cut/cut.py in front passes over what is no packet",
        Shown(name),
        BadPacket { packet, ends }
    )
}

// Whether a front is that of a transport stream.
fn begins_stream(front: &[u8]) -> bool {
    let mut units = front.chunks(SIZE).take(UNITS);
    front.len() >= SIZE && units.all(|unit| unit.first() == Some(&SYNC))
}

// Whether a named file begins as a transport stream. A pipe is not read again.
fn is_stream(rt: &(impl Files + AllocGlobal), name: &str) -> bool {
    text_of(rt, name).map_or(false, |front| begins_stream(&front))
}

fn say_stream(rt: &impl Eprint, name: &str) -> io::Result<()> {
    eprintln!(rt;
        "{}: it begins as a transport stream; `show t2mi` shows it",
        Shown(name)
    )
}

/// Says where a file of T2-MI packets has none.
pub fn say_no_packet(
    rt: &(impl Eprint + Files + AllocGlobal),
    name: &str,
    outcome: Outcome,
) -> io::Result<()> {
    let Outcome::PacketRefused { at, why } = outcome else {
        return Ok(());
    };
    if at == 0 && is_stream(rt, name) {
        return say_stream(rt, name);
    }
    let before = if at == 0 {
        ""
    } else {
        "the packets before it were shown; "
    };
    eprintln!(rt;
        "{}: no T2-MI packet begins at byte {at}: {why}; {before}see that the file holds whole packets and nothing else",
        Shown(name)
    )
}

// Why bytes are no record, for people.
#[derive(Clone, Copy)]
struct WhyNoRecord(RecordWhy);

impl Display for WhyNoRecord {
    fn fmt<W: Write>(&self, f: &mut Formatter<W>) -> fmt::Result {
        match self.0 {
            RecordWhy::Head => write!(f, "no head of a record, or the file ends inside it"),
            RecordWhy::Length => write!(
                f,
                "the file ends inside it, or its parts do not fill its length"
            ),
            why => write!(f, "{why}"),
        }
    }
}

/// Says which record of a file is none, or not the one that is expected.
pub fn say_no_record(
    rt: &(impl Eprint + Files + AllocGlobal),
    request: Option<Request<'_>>,
    name: &str,
    number: u64,
    why: RecordWhy,
) -> io::Result<()> {
    if number == 0 && is_stream(rt, name) {
        return say_stream(rt, name);
    }
    let receives = matches!(
        request,
        Some(Request::Receive { .. } | Request::CommonReceive { .. })
    );
    let (before, holds) = if receives {
        (
            "OUT holds what the records before it give back; ",
            "the records of successive frames of CONFIG",
        )
    } else {
        ("the records before it were shown; ", "whole records")
    };
    eprintln!(rt;
        "{}: record {number}, counted from 0: {}; {}see that the file holds {holds} and nothing else",
        Shown(name),
        WhyNoRecord(why),
        if number == 0 { "" } else { before }
    )
}
