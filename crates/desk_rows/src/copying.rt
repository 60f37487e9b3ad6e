// Runs of the machine that copies, into a file and aloud.
ghost use Rattle.std.specs.Prelude.{◌≡◌, ◌<◌, [], length};
ghost use Rattle.file_run.specs.FileRun.{AreApart};

use crate::copy_machine::CopyMachine;
use crate::failed;
use file_run::{OutBuffer, Output, ReadAhead, RunFault, run, tell};
use ports::{Desk, MemoryDesk, Word};
use std::alloc::Global;
use std::io::{self, Print};

// Copies a file into one.
fn copy<D: Desk>(
    reader: ReadAhead,
    buffer: &mut OutBuffer,
    out: &str,
    ins: &[Word],
    desk: &mut D,
) -> Result<(), RunFault>
    requires one { length ins.now ≡ 1 }
    requires apart { AreApart out.now ins.now }
{
    let mut machine = CopyMachine::new();
    let mut readers = [reader];
    run(
        &mut machine,
        &mut readers,
        buffer,
        Output::File(out),
        ins,
        desk,
    )
}

// So many bytes.
fn bytes(alloc: Global, count: u32) -> Option<Vec<u8>> {
    let mut bytes = Vec::new(alloc);
    for number in 0..count {
        bytes.push((number % 251) as u8).ok()?;
    }
    Some(bytes)
}

// A desk of which a read or write moves at most so many bytes, with this file, if one is given.
fn desk_with(alloc: Global, file: Option<&[u8]>, most: usize) -> Option<MemoryDesk>
    requires { 0 < most }
{
    let mut desk = MemoryDesk::new(alloc);
    if let Some(bytes) = file {
        desk.put_file("in", bytes).ok()?;
    }
    desk.cap(most);
    Some(desk)
}

// How a copy ends.
fn copy_over(alloc: Global, desk: &mut MemoryDesk) -> Option<Result<(), RunFault>> {
    let reader = ReadAhead::open(alloc).ok()?;
    let mut buffer = OutBuffer::open(alloc).ok()?;
    let ins = [Word::new(alloc, "in").ok()?];
    Some(copy(reader, &mut buffer, "out", &ins, desk))
}

fn tell_copy<D: Desk>(
    reader: &mut ReadAhead,
    page: &mut OutBuffer,
    desk: &mut D,
) -> Result<(), RunFault>
    requires { page.old ≡ [] }
{
    let mut machine = CopyMachine::new();
    tell(&mut machine, reader, page, "in", desk)
}

// The same aloud.
fn tell_over(alloc: Global, desk: &mut MemoryDesk) -> Option<Result<(), RunFault>> {
    let mut reader = ReadAhead::open(alloc).ok()?;
    let mut page = OutBuffer::open(alloc).ok()?;
    Some(tell_copy(&mut reader, &mut page, desk))
}

// A file of so many bytes is copied.
fn copy_row(rt: &(impl Print + AllocGlobal), count: u32, most: usize) -> io::Result<()>
    requires { 0 < most }
{
    let Some(file) = bytes(rt.alloc(), count) else {
        return failed();
    };
    let Some(mut desk) = desk_with(rt.alloc(), Some(&file), most) else {
        return failed();
    };
    let Some(result) = copy_over(rt.alloc(), &mut desk) else {
        return failed();
    };
    let is_same = desk.file("out") == Some(file.as_slice());
    println!(rt; "# {count} bytes are copied by calls of {most}: {result:?}, the same: {is_same}")
}

// A file of so many bytes is told: the sizes of the texts.
fn tell_row(rt: &(impl Print + AllocGlobal), count: u32, most: usize) -> io::Result<()>
    requires { 0 < most }
{
    let Some(file) = bytes(rt.alloc(), count) else {
        return failed();
    };
    let Some(mut desk) = desk_with(rt.alloc(), Some(&file), most) else {
        return failed();
    };
    let Some(result) = tell_over(rt.alloc(), &mut desk) else {
        return failed();
    };
    let is_same = desk.said() == file.as_slice();
    print!(rt;
        "# {count} bytes are told by calls of {most}: {result:?}, the same: {is_same}, in texts of"
    )?;
    for text in desk.texts() {
        print!(rt; " {}", text.len())?;
    }
    println!(rt; "")
}

// No file is there.
fn absent_row(rt: &(impl Print + AllocGlobal)) -> io::Result<()> {
    let Some(mut desk) = desk_with(rt.alloc(), None, 1) else {
        return failed();
    };
    let Some(result) = copy_over(rt.alloc(), &mut desk) else {
        return failed();
    };
    println!(rt;
        "# no file: {result:?}, created: {}",
        desk.file("out").is_some()
    )
}

/// Plays each row.
pub fn rows(rt: &(impl Print + AllocGlobal)) -> io::Result<()> {
    for most in [997, 1_000_000] {
        for count in [0, 1, 300_000] {
            copy_row(rt, count, most)?;
            tell_row(rt, count, most)?;
        }
    }
    absent_row(rt)
}
