// What was read of a file and not yet taken.
ghost use Rattle.std.specs.Prelude.{◌≡◌, ◌↔◌, IsTrue, ◌+◌, ◌-◌, ◌<◌, ◌≤◌, ◌==◌, [], false, length, take, drop, IfOk, ℕ};
ghost use Rattle.std.specs.Prelude.{max, vec_capacity, vec_len, OnErr};
ghost use Rattle.ports.specs.Desk.{Keeps, Reads, has_run_out};
ghost use Rattle.ports.specs.Counts.{MayFailReading};
ghost use Rattle.file_run.specs.Ahead.{ReadsAhead, IsAtEnd};
ghost use Rattle.file_run.specs.Waiting.{part_in, IsSettled};

use bit_slice::OutOfMemory;
use ports::{Desk, DeskFault};
use std::alloc::Global;
use std::marker::Model;

/// How many bytes wait at most.
pub const BUFFER: usize = 131_072;

/// How many bytes may be wanted at once. There is room for as many behind those that wait: as it is an eighth of the
/// buffer, what waits is moved to the front once in seven eighths of it at most.
pub const MOST_WANTED: usize = 16_384;

/// A range of places, end excluded.
#[derive(Clone, Copy)]
struct Span {
    start: usize,
    end: usize,
}

/// Bytes that were read of a file and not yet taken, seen as a list. After `open` it takes no memory.
#[derive(Drop)]
pub struct InBuffer {
    // Room for `BUFFER` bytes, laid out as far as reads asked for: a gateway has a file for each PLP, and pages that are
    // not touched cost nothing.
    bytes: Vec<u8>,
    // Where they wait.
    span: Span,
}

impl Model for InBuffer {
    ghost use Rattle.std.specs.Prelude.{◌≤◌, List, ℕ, vec_capacity, vec_len};
    ghost use Rattle.file_run.specs.Waiting.{part_in};
    ghost use Rattle.file_run.specs.declared.input.TheConstants.{BUFFER};

    ghost Value = { List ℕ };

    ghost view = { λ i. part_in i.span i.bytes.items };

    ghost invariant = { λ i. (i.span.start ≤ i.span.end) × (i.span.end ≤ vec_len i.bytes) × (vec_len i.bytes ≤ BUFFER)
        × (BUFFER ≤ vec_capacity i.bytes) };
}

// Where the bytes of a span wait once they were moved to the front, if there was little room behind them, or none wait:
// so few bytes are written over and over, and stay near.
fn settle(bytes: &mut [u8], span: Span) -> Span
    requires order { span.start ≤ span.end }
    requires within { span.end ≤ length bytes.old }
    requires few { span.end - span.start + MOST_WANTED ≤ BUFFER }
    requires size { length bytes.old ≤ BUFFER }
    ensures { IsSettled bytes.old span bytes.new result }
{
    if span.start == span.end {
        return Span { start: 0, end: 0 };
    }
    if BUFFER - span.end >= MOST_WANTED {
        return span;
    }
    bytes.copy_within(span.start..span.end, 0);
    Span {
        start: 0,
        end: span.end - span.start,
    }
}

// Lays bytes out up to an end, for which there is room.
fn lay_out(bytes: &mut Vec<u8>, end: usize)
    requires room { end ≤ vec_capacity bytes.old }
    ensures front { (n : ℕ) → n ≤ vec_len bytes.old → take n bytes.new.items ≡ take n bytes.old.items }
    ensures end { end ≤ vec_len bytes.new }
    ensures len { vec_len bytes.new ≡ max end (vec_len bytes.old) }
    ensures capacity { vec_capacity bytes.old ≤ vec_capacity bytes.new }
{
    if bytes.len() < end {
        bytes.resize(end, 0).unwrap();
    }
}

// Reads the next bytes of a file to a place of the bytes, at most `most`.
fn read_at<D: Desk>(
    desk: &mut D,
    handle: u32,
    bytes: &mut [u8],
    end: usize,
    most: u64,
) -> Result<usize, DeskFault>
    requires opened { handle < length (D.state desk.old).opened }
    requires going { has_run_out (D.state desk.old) handle ≡ false }
    requires room { end < length bytes.old }
    requires some { 0 < most }
    ensures ok { IfOk result (λ n. Reads (D.state desk.old) (D.state desk.new) handle n (drop end bytes.new)) }
    ensures err { OnErr result (Keeps (D.state desk.old) (D.state desk.new)) }
    ensures before { take end bytes.new ≡ take end bytes.old }
    ensures len { length bytes.new ≡ length bytes.old }
    ensures count { IfOk result (λ n. end + n ≤ length bytes.new) }
    ensures most { IfOk result (λ n. n ≤ most) }
    ensures counts { MayFailReading (D.state desk.old).counts (D.state desk.new).counts result }
{
    let limit = end + (bytes.len() - end).min(most as usize);
    desk.read(handle, &mut bytes[end..limit])
}

// Reads the next bytes of a file behind those of the span, which may be moved for it, at most `most`.
fn read_behind<D: Desk>(
    desk: &mut D,
    handle: u32,
    bytes: &mut Vec<u8>,
    span: &mut Span,
    most: u64,
) -> Result<usize, DeskFault>
    requires opened { handle < length (D.state desk.old).opened }
    requires going { has_run_out (D.state desk.old) handle ≡ false }
    requires order { span.old.start ≤ span.old.end }
    requires within { span.old.end ≤ vec_len bytes.old }
    requires few { span.old.end - span.old.start + MOST_WANTED ≤ BUFFER }
    requires size { vec_len bytes.old ≤ BUFFER }
    requires capacity { BUFFER ≤ vec_capacity bytes.old }
    requires some { 0 < most }
    ensures reads { ReadsAhead (D.state desk.old) (D.state desk.new) handle (part_in span.old bytes.old.items)
        (part_in span.new bytes.new.items) }
    ensures order { (span.new.start ≤ span.new.end) × (span.new.end ≤ vec_len bytes.new) }
    ensures size { vec_len bytes.new ≤ BUFFER }
    ensures capacity { BUFFER ≤ vec_capacity bytes.new }
    ensures count { IfOk result (λ n. span.new.end - span.new.start ≡ span.old.end - span.old.start + n) }
    ensures most { IfOk result (λ n. n ≤ most) }
    ensures end { IfOk result (λ n. n ≡ 0 → IsAtEnd (D.state desk.new) handle) }
    ensures runs_out { IfOk result (λ n. has_run_out (D.state desk.new) handle ≡ (n == 0)) }
    ensures goes_on { OnErr result (has_run_out (D.state desk.new) handle ≡ false) }
    ensures err { OnErr result (part_in span.new bytes.new.items ≡ part_in span.old bytes.old.items) }
    ensures counts { MayFailReading (D.state desk.old).counts (D.state desk.new).counts result }
{
    *span = settle(bytes, *span);
    let room = (BUFFER - span.end).min(most as usize);
    lay_out(bytes, span.end + room);
    let count = read_at(desk, handle, bytes, span.end, most)?;
    span.end += count;
    Ok(count)
}

impl InBuffer {
    /// No bytes, and the memory for them. Its one refusal is want of memory.
    pub fn open(alloc: Global) -> Result<InBuffer, OutOfMemory>
        ensures { IfOk result (λ i. i ≡ []) }
    {
        let bytes = Vec::with_capacity(alloc, BUFFER)?;
        let span = Span { start: 0, end: 0 };
        Ok(InBuffer { bytes, span })
    }

    /// The number of bytes that wait.
    pub fn len(&self) -> usize
        ensures { result ≡ length self.now }
    {
        self.span.end - self.span.start
    }

    /// Whether no byte waits.
    pub fn is_empty(&self) -> bool
        ensures { IsTrue result ↔ (self.now ≡ []) }
    {
        self.len() == 0
    }

    /// The bytes that wait.
    pub fn as_bytes(&self) -> &[u8]
        ensures { result.now ≡ self.now }
    {
        &self.bytes[self.span.start..self.span.end]
    }

    /// Takes bytes from the front.
    pub fn skip(&mut self, count: usize)
        requires { count ≤ length self.old }
        ensures { self.new ≡ drop count self.old }
    {
        self.span.start += count;
    }

    /// Reads the next bytes of a file behind those that wait, at most `most`: how many, and 0 only at the end of the
    /// file, which is not read again then.
    pub fn read<D: Desk>(
        &mut self,
        desk: &mut D,
        handle: u32,
        most: u64,
    ) -> Result<usize, DeskFault>
        requires opened { handle < length (D.state desk.old).opened }
        requires going { has_run_out (D.state desk.old) handle ≡ false }
        requires few { length self.old + MOST_WANTED ≤ BUFFER }
        requires some { 0 < most }
        ensures reads { ReadsAhead (D.state desk.old) (D.state desk.new) handle self.old self.new }
        ensures count { IfOk result (λ n. length self.new ≡ length self.old + n) }
        ensures most { IfOk result (λ n. n ≤ most) }
        ensures end { IfOk result (λ n. n ≡ 0 → IsAtEnd (D.state desk.new) handle) }
        ensures runs_out { IfOk result (λ n. has_run_out (D.state desk.new) handle ≡ (n == 0)) }
        ensures goes_on { OnErr result (has_run_out (D.state desk.new) handle ≡ false) }
        ensures err { OnErr result (self.new ≡ self.old) }
        ensures counts { MayFailReading (D.state desk.old).counts (D.state desk.new).counts result }
    {
        read_behind(desk, handle, &mut self.bytes, &mut self.span, most)
    }
}
