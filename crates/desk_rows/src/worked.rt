// Calls of a desk over real files, and what comes of each.
//
// A script has a call a line: `open NAME`, `read HANDLE`, `create NAME`, `write OUT TEXT`, `say TEXT`; `first` asks for
// the first fault. Any other line tells nothing.
ghost use Rattle.std.specs.Prelude.{◌≡◌, ◌<◌, length, vec_len};

use crate::short::ShortFiles;
use ports::{Desk, HostDesk, HostFault};
use std::alloc::Global;
use std::io::{self, Print};
use std::rt::Files;
use std::str;

/// A desk, and of each file that was opened whether it was read to its end.
#[derive(Drop)]
struct Worked<R: Files + Print + Drop> {
    desk: HostDesk<R>,
    ended: Vec<bool>,
    outs: u64,
    ghost same: { desk.ended ≡ ended.items },
    ghost opened: { length desk.opened ≡ vec_len ended },
    ghost created: { desk.created ≡ outs },
}

fn tell_fault(rt: &impl Print, fault: Option<&HostFault>) -> io::Result<()> {
    match fault {
        None => println!(rt; " = none"),
        Some(HostFault::IsRead { name: Some(name) }) => println!(rt; " = {name} is read"),
        Some(
            HostFault::Read {
                name: Some(name),
                why,
            },
        ) => println!(rt; " = reading {name}: {why}"),
        Some(
            HostFault::Write {
                name: Some(name),
                why,
            },
        ) => println!(rt; " = writing {name}: {why}"),
        Some(HostFault::Said { why }) => println!(rt; " = saying: {why}"),
        Some(_) => println!(rt; " = no name"),
    }
}

fn tell_text(rt: &impl Print, bytes: &[u8]) -> io::Result<()> {
    println!(rt; " = {}", str::from_utf8(bytes).unwrap_or("no text"))
}

// The number that a text begins with, and what stands behind it.
fn numbered(text: &str) -> (u32, &str) {
    let (first, rest) = text.split_once(' ').unwrap_or((text, ""));
    (first.parse::<u32>().unwrap_or(0), rest)
}

impl<R: Files + Print + Drop> Worked<R> {
    fn new(alloc: Global, below: R) -> Worked<R> {
        Worked {
            desk: HostDesk::new(below, alloc),
            ended: Vec::new(alloc),
            outs: 0,
        }
    }

    fn open(self, rt: &impl Print, name: &str) -> io::Result<Worked<R>> {
        let mut desk = self.desk;
        let mut ended = self.ended;
        match desk.open(name) {
            Ok(handle) => {
                ended.push(false)?;
                println!(rt; " = {handle}")?;
            }
            Err(_) => println!(rt; " = fault")?,
        }
        Ok(Worked {
            desk,
            ended,
            outs: self.outs,
        })
    }

    fn read(self, rt: &impl Print, handle: u32) -> io::Result<Worked<R>> {
        let mut desk = self.desk;
        let mut ended = self.ended;
        let mut buffer = [0u8; 8];
        let at = handle as usize;
        if at >= ended.len() || ended[at] {
            println!(rt; " = not asked")?;
        } else {
            match desk.read(handle, &mut buffer) {
                Ok(count) => {
                    ended[at] = count == 0;
                    tell_text(rt, &buffer[..count])?;
                }
                Err(_) => println!(rt; " = fault")?,
            }
        }
        Ok(Worked {
            desk,
            ended,
            outs: self.outs,
        })
    }

    fn create(self, rt: &impl Print, name: &str) -> io::Result<Worked<R>> {
        let mut desk = self.desk;
        let mut outs = self.outs;
        match desk.create(name) {
            Ok(out) => {
                outs = u64::from(out) + 1;
                println!(rt; " = {out}")?;
            }
            Err(_) => println!(rt; " = fault")?,
        }
        Ok(Worked {
            desk,
            ended: self.ended,
            outs,
        })
    }

    fn write(self, rt: &impl Print, out: u32, text: &str) -> io::Result<Worked<R>> {
        let mut desk = self.desk;
        if u64::from(out) >= self.outs || text.is_empty() {
            println!(rt; " = not asked")?;
        } else {
            match desk.write(out, text.as_bytes()) {
                Ok(count) => println!(rt; " = {count}")?,
                Err(_) => println!(rt; " = fault")?,
            }
        }
        Ok(Worked {
            desk,
            ended: self.ended,
            outs: self.outs,
        })
    }

    fn say(self, rt: &impl Print, text: &str) -> io::Result<Worked<R>> {
        let mut desk = self.desk;
        match desk.say(text.as_bytes()) {
            Ok(()) => println!(rt; " = said")?,
            Err(_) => println!(rt; " = fault")?,
        }
        Ok(Worked {
            desk,
            ended: self.ended,
            outs: self.outs,
        })
    }

    fn first(&self, rt: &impl Print) -> io::Result<()> {
        tell_fault(rt, self.desk.first_fault())
    }

    // Makes the call of a line, and tells what comes of it.
    fn follow(self, rt: &impl Print, line: &str) -> io::Result<Worked<R>> {
        let (verb, rest) = line.split_once(' ').unwrap_or((line, ""));
        let (number, text) = numbered(rest);
        match verb {
            "open" => self.open(rt, rest),
            "read" => self.read(rt, number),
            "create" => self.create(rt, rest),
            "write" => self.write(rt, number, text),
            "say" => self.say(rt, rest),
            "first" => {
                self.first(rt)?;
                Ok(self)
            }
            _ => {
                println!(rt; "")?;
                Ok(self)
            }
        }
    }
}

// Follows a script over a desk on which nothing was done.
fn play<R: Files + Print + Drop>(
    rt: &(impl Print + AllocGlobal),
    below: R,
    script: &str,
) -> io::Result<()> {
    let mut worked = Worked::new(rt.alloc(), below);
    for line in script.lines() {
        print!(rt; "{line}")?;
        worked = worked.follow(rt, line)?;
    }
    Ok(())
}

static REAL: [&str; 6] = [
    "# reads a real file to its end, and no further\ncreate hello\nwrite 0 hello\nopen hello\nread 0\nread 0\nread 0",
    "# writes a real file, and does not empty one that is read under another name
create other
write 0 hello all
open other
read 0
read 0
open hello
first
create ./hello
first
open hello
read 2",
    "# writes two files in turn
create first
create second
write 0 one
write 1 other
write 0  more
open first
read 0
open second
read 1",
    "# keeps the first fault\nopen no_such_file\ncreate no_such_folder/file\nfirst",
    "# a device is full\ncreate /dev/full\nwrite 0 lost\nfirst",
    "# a folder is not read\nopen .\nread 0\nfirst",
];

static SHORT: &str = "# a call moves one byte
create short
write 0 hi
write 0 i
open short
read 0
read 0
read 0
say whole
say lost
first";

static CUT: &str = "open hello\nread 0\nfirst\ncreate short\nwrite 0 hi\nfirst";

/// Plays the scripts.
pub fn rows<R: Files + Print + AllocGlobal + Drop>(rt: &R) -> io::Result<()> {
    for script in &REAL {
        play(rt, rt, script)?;
    }
    play(rt, ShortFiles { rt, times: 1 }, SHORT)?;
    for times in [1_000, 1_001] {
        println!(rt; "# cut short {times} times")?;
        play(rt, ShortFiles { rt, times }, CUT)?;
    }
    Ok(())
}
