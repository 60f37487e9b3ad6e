//! Plays rows over the formats and the signalling: each line is a call, and is written with its answer behind it.
#![tactic(auto)]

mod bits;
mod frames;
mod networks;
mod packets;
mod words;

use networks::Networks;
use std::alloc::{AllocError, Global};
use std::io::{self, Print};
use words::Words;

// What a call answers. Each group of calls knows its own.
fn answer(alloc: Global, networks: &Networks, words: &Words<'_>) -> Result<String, AllocError> {
    match words.verb() {
        "crc32" | "crc8" | "prbs" | "blocks" | "field" | "bytes" | "put" | "take" | "joined" => {
            bits::answer(alloc, words)
        }
        "shape"
        | "map"
        | "cell"
        | "queue"
        | "pre"
        | "conf"
        | "dyn"
        | "turned"
        | "read"
        | "post"
        | "knows" => { networks.answer(words) }
        "baseband" | "written" | "scramble" => frames::answer(alloc, words),
        _ => packets::answer(alloc, words),
    }
}

// Plays a line. A network is defined, and tells nothing; empty lines and those that begin with `#` are written as they
// stand.
fn play_line(
    rt: &(impl Print + AllocGlobal),
    networks: &mut Networks,
    line: &str,
) -> io::Result<()> {
    if line.is_empty() || line.starts_with('#') {
        return println!(rt; "{line}");
    }
    let words = Words::new(rt.alloc(), line)?;
    if words.verb() == "network" {
        networks.add(&words)?;
        return println!(rt; "{line}");
    }
    let answer = answer(rt.alloc(), networks, &words)?;
    println!(rt; "{line} = {answer}")
}

fn play(rt: &(impl Print + AllocGlobal), networks: &mut Networks, script: &str) -> io::Result<()> {
    for line in script.lines() {
        play_line(rt, networks, line)?;
    }
    Ok(())
}

fn main(rt: HostRuntime) -> io::Result<()> {
    let script = io::read_to_string(rt.alloc(), rt.reader())?;
    let mut networks = Networks::new(rt.alloc());
    play(&rt, &mut networks, script.as_str())
}
