// The file "hello" as it is read ahead, and a file that is written, however few bytes a call moves.
ghost use Rattle.std.specs.Prelude.{◌<◌, ◌≤◌, ◌≡◌, false, length, not, IfSome};
ghost use Rattle.ports.specs.Desk.{has_run_out};
ghost use Rattle.file_run.specs.Reading.{given_of, longest_file};

use crate::failed;
use file_run::{MOST_WANTED, ReadAhead, write_all};
use ports::{Desk, MemoryDesk};
use std::alloc::Global;
use std::io::{self, Print};
use std::str;

// A desk with this file, of which a read or write moves at most so many bytes.
fn desk(alloc: Global, most: usize) -> Option<MemoryDesk>
    requires { 0 < most }
{
    let mut desk = MemoryDesk::new(alloc);
    desk.put_file("f", b"hello").ok()?;
    desk.cap(most);
    Some(desk)
}

fn open(desk: &mut MemoryDesk) -> Option<u32>
    ensures opened { IfSome result (λ handle. handle < length desk.new.state.opened) }
    ensures going { IfSome result (λ handle. has_run_out desk.new.state handle ≡ false) }
{
    desk.open("f").ok()
}

// A reader at the front of a file.
fn begin(alloc: Global, handle: u32) -> Option<ReadAhead>
    ensures handle { IfSome result (λ reader. reader.handle ≡ handle) }
    ensures none { IfSome result (λ reader. given_of reader ≡ 0) }
{
    let mut reader = ReadAhead::open(alloc).ok()?;
    reader.begin(handle);
    Some(reader)
}

// What `read_until` answers, and None if it fails.
fn read_until(
    desk: &mut MemoryDesk,
    reader: &mut ReadAhead,
    least: usize,
    most: u64,
) -> Option<bool>
    requires opened { reader.old.handle < length desk.old.state.opened }
    requires going { has_run_out desk.old.state reader.old.handle ≡ false }
    requires within { (least ≤ most) × (least ≤ MOST_WANTED) }
    requires short { given_of reader.old < longest_file }
    ensures opened { length desk.new.state.opened ≡ length desk.old.state.opened }
    ensures handle { reader.new.handle ≡ reader.old.handle }
    ensures goes_on { IfSome result (λ full. has_run_out desk.new.state reader.old.handle ≡ not full) }
    ensures short { IfSome result (λ _. given_of reader.new < longest_file) }
{
    reader.read_until(desk, least, most).ok()
}

// The file as it is read ahead.
#[derive(Drop)]
struct Reading {
    desk: MemoryDesk,
    handle: u32,
    reader: ReadAhead,
    ended: bool,
    ghost opened: { handle < length desk.state.opened },
    ghost same: { reader.handle ≡ handle },
    ghost going: { has_run_out desk.state handle ≡ ended },
    ghost short: { given_of reader < longest_file },
}

impl Reading {
    // Reads and writes move at most so many bytes.
    fn open(alloc: Global, most: usize) -> Option<Reading>
        requires { 0 < most }
    {
        let mut desk = desk(alloc, most)?;
        let handle = open(&mut desk)?;
        let reader = begin(alloc, handle)?;
        Some(Reading {
            desk,
            handle,
            reader,
            ended: false,
        })
    }

    // Reads on until so many bytes wait, and no further than so many. None if the file has ended, or it fails.
    fn until(self, least: usize, most: u64) -> Option<Reading> {
        if self.ended || least > MOST_WANTED || least as u64 > most {
            return None;
        }
        let mut desk = self.desk;
        let mut reader = self.reader;
        let handle = self.handle;
        let full = read_until(&mut desk, &mut reader, least, most)?;
        Some(Reading {
            desk,
            handle,
            reader,
            ended: !full,
        })
    }

    // Takes bytes, if so many wait.
    fn skip(self, count: usize) -> Reading {
        let mut reader = self.reader;
        reader.skip(count.min(reader.as_bytes().len()));
        Reading {
            desk: self.desk,
            handle: self.handle,
            reader,
            ended: self.ended,
        }
    }

    // Tells what waits, and whether the file has ended.
    fn tell(self, rt: &impl Print) -> io::Result<Reading> {
        let text = str::from_utf8(self.reader.as_bytes()).unwrap_or("no text");
        println!(rt; "{text} waits, ended: {}", self.ended)?;
        Ok(self)
    }
}

fn until(rt: &impl Print, reading: Reading, least: usize, most: u64) -> io::Result<Reading> {
    print!(rt; "until {least}, at most {most}: ")?;
    match reading.until(least, most) {
        Some(reading) => reading.tell(rt),
        None => failed(),
    }
}

// Reads the file to its end.
fn read_row(rt: &(impl Print + AllocGlobal), most: usize) -> io::Result<()>
    requires { 0 < most }
{
    println!(rt; "# read ahead by calls of {most}")?;
    let Some(reading) = Reading::open(rt.alloc(), most) else {
        return failed();
    };
    let reading = until(rt, reading, 3, 4)?;
    let reading = until(rt, reading.skip(2), 3, 10)?;
    until(rt, reading, 4, 10)?;
    Ok(())
}

// Creates a file.
fn create(desk: &mut MemoryDesk) -> Option<u32>
    ensures { IfSome result (λ out. out < desk.new.state.created) }
{
    desk.create("o").ok()
}

// Writes all of a piece.
fn write(desk: &mut MemoryDesk, out: u32, piece: &[u8]) -> Option<()>
    requires { out < desk.old.state.created }
    ensures { desk.new.state.created ≡ desk.old.state.created }
{
    write_all(desk, out, piece).ok()
}

fn written(alloc: Global, most: usize) -> Option<MemoryDesk>
    requires { 0 < most }
{
    let mut desk = desk(alloc, most)?;
    let out = create(&mut desk)?;
    write(&mut desk, out, b"and so")?;
    write(&mut desk, out, b"")?;
    write(&mut desk, out, b" on")?;
    Some(desk)
}

fn write_row(rt: &(impl Print + AllocGlobal), most: usize) -> io::Result<()>
    requires { 0 < most }
{
    let Some(desk) = written(rt.alloc(), most) else {
        return failed();
    };
    let text = str::from_utf8(desk.file("o").unwrap_or(&[])).unwrap_or("no text");
    println!(rt; "# written by calls of {most}: {text}")
}

/// Plays each row.
pub fn rows(rt: &(impl Print + AllocGlobal)) -> io::Result<()> {
    for most in [1, 2, 100_000] {
        read_row(rt, most)?;
        write_row(rt, most)?;
    }
    Ok(())
}
