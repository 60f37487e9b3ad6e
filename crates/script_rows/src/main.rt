//! Plays a script of worked runs: commands over files in memory. What it writes is a page: the rows by their names,
//! each with what came of it.
#![tactic(auto)]

mod bench;
mod calls;
mod page;
mod people;
mod pieces;
mod statements;

use bench::Files;
use page::{Place, text_of};
use statements::answer;
use std::io::{self, Print};

// Plays a line, and writes what came of it: where the page goes on.
fn play_line(rt: &impl Print, files: &mut Files, place: Place, line: &str) -> io::Result<Place> {
    let came = answer(files, line)?;
    let (text, next) = text_of(files.alloc(), place, line, &came)?;
    print!(rt; "{text}")?;
    Ok(next)
}

fn play(rt: &impl Print, files: &mut Files, script: &str) -> io::Result<()> {
    let mut place = Place::Line;
    for line in script.lines() {
        place = play_line(rt, files, place, line)?;
    }
    println!(rt; "")
}

fn main(rt: HostRuntime) -> io::Result<()> {
    let script = io::read_to_string(rt.alloc(), rt.reader())?;
    let mut files = Files::new(rt.alloc());
    play(&rt, &mut files, script.as_str())
}
