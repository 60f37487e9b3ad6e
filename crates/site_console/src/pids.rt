// On which PID `show t2mi` looked, and which others the file has.
use crate::front::front_of;
use desk_watch::Shown;
use std::fmt::{self, Display, Formatter, Write};
use std::fs::{self, Files};
use std::io::{self, Eprint};
use t2mi_stream::unit_pid;
use ts_packet::SIZE;

// How many units at the front of a file are looked at, and how many PIDs are told at most.
const UNITS: usize = 5_000;

const MOST_PIDS: usize = 32;

// PIDs, one behind another.
#[derive(Clone, Copy)]
struct Pids<'a>(&'a [u16]);

impl Display for Pids<'_> {
    fn fmt<W: Write>(&self, f: &mut Formatter<W>) -> fmt::Result {
        let mut before = "";
        for pid in self.0 {
            write!(f, "{before}{pid}")?;
            before = ", ";
        }
        Ok(())
    }
}

// The PID that a unit tells.
fn pid_of(unit: &[u8]) -> Option<u16> {
    unit_pid(unit.try_into().ok()?)
}

// The PIDs that units tell, each where it comes first.
fn pids_in(rt: &impl AllocGlobal, bytes: &[u8]) -> io::Result<Vec<u16>> {
    let mut pids = Vec::new(rt.alloc());
    for unit in bytes.chunks_exact(SIZE) {
        if let Some(pid) = pid_of(unit) {
            if pids.len() < MOST_PIDS && !pids.contains(&pid) {
                pids.push(pid)?;
            }
        }
    }
    Ok(pids)
}

/// Says on which PID of a file T2-MI was looked for: the first one in it. If none came there, the others are told. A
/// pipe gives its bytes once, so nothing is told of it.
pub fn say_pids(
    rt: &(impl Eprint + Files + AllocGlobal),
    name: &str,
    none_came: bool,
) -> io::Result<()> {
    if !fs::metadata(rt, name)?.is_file() {
        return Ok(());
    }
    let file = Shown(name);
    let front = front_of(rt, name, UNITS * SIZE)?;
    if front.len() < SIZE {
        return eprintln!(rt; "{file}: it has no unit of 188 bytes");
    }
    let pids = pids_in(rt, &front)?;
    let Some((first, others)) = pids.split_first() else {
        return eprintln!(rt;
            "{file}: no unit of 188 bytes in its first {UNITS} is a transport packet with a payload, other than a null packet"
        );
    };
    if !none_came {
        return eprintln!(rt; "{file}: T2-MI was looked for on PID {first}, the first one in it");
    }
    eprintln!(rt; "{file}: no T2-MI packet came on PID {first}, the first one in it")?;
    if others.is_empty() {
        return Ok(());
    }
    eprintln!(rt;
        "{file}: others in its first {UNITS} units: {}; share/pid/pid.py cuts one out",
        Pids(others)
    )
}
