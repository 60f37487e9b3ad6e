// A file that is read ahead.

use crate::input::{BUFFER, InBuffer, MOST_WANTED};
use bit_slice::OutOfMemory;
use ports::Desk;
use std::alloc::Global;
use std::marker::Model;
use thiserror::Error;

/// A file that gives as many bytes is too long.
pub const LONGEST_FILE: u64 = 1 << 40;

/// Why a file was not read on.
#[derive(Clone, Copy, Debug, PartialEq, Eq, Error)]
pub enum ReadStop {
    /// The file gave [`LONGEST_FILE`].
    #[error("the file is too long")]
    TooLong,
    /// The file could not be read.
    #[error("the file could not be read")]
    Fault,
}

/// Reads a file ahead. It is seen as the file's handle, how many bytes were taken, the bytes that were read behind
/// them, and whether the file was found to have ended. After `open` it takes no memory.
#[derive(Drop)]
pub struct ReadAhead {
    handle: u32,
    taken: u64,
    input: InBuffer,
    ended: bool,
}

impl Model for ReadAhead {
    ghost use Rattle.std.specs.Prelude.{◌≤◌, ◌+◌, length};
    ghost use Rattle.file_run.specs.Codes.{reading_code};
    ghost use Rattle.file_run.specs.Reading.{Reading, longest_file};

    ghost Value = { Reading };

    ghost coded = { reading_code };

    ghost view = { λ r. record { handle = r.handle; taken = r.taken; waiting = r.input; ended = r.ended } };

    ghost invariant = { λ r. r.taken + length r.input ≤ longest_file };
}

impl ReadAhead {
    ghost use Rattle.std.specs.Prelude.{◌≡◌, ◌<◌, ◌≤◌, ◌+◌, ◌==◌, ℕ, [], true, false, not, length, drop, IfOk, IfErr};
    ghost use Rattle.std.specs.Prelude.{OnOk, OnErr, IsTrue};
    ghost use Rattle.ports.specs.Desk.{SameCounts, has_run_out};
    ghost use Rattle.file_run.specs.Ahead.{IsAtEnd};
    ghost use Rattle.file_run.specs.Reading.{given_of, longest_file, ReadsOn, TakesNone, StopsReading};

    /// A reader of nothing, and its memory. Its one refusal is want of memory.
    pub fn open(alloc: Global) -> Result<ReadAhead, OutOfMemory>
        ensures { IfOk result (λ r. r ≡ record { handle = 0; taken = 0; waiting = []; ended = false }) }
    {
        Ok(ReadAhead {
            handle: 0,
            taken: 0,
            input: InBuffer::open(alloc)?,
            ended: false,
        })
    }

    /// Begins with the file of a handle, from the handle's place on.
    pub fn begin(&mut self, handle: u32)
        ensures { self.new ≡ record { handle = handle; taken = 0; waiting = []; ended = false } }
    {
        self.handle = handle;
        self.taken = 0;
        self.input.skip(self.input.len());
        self.ended = false;
    }

    /// The file was found to have ended behind the bytes that wait.
    pub fn finish(&mut self)
        ensures { self.new ≡ record self.old { ended = true } }
    {
        self.ended = true;
    }

    /// The bytes that wait.
    pub fn as_bytes(&self) -> &[u8]
        ensures { result.now ≡ self.now.waiting }
    {
        self.input.as_bytes()
    }

    /// Takes bytes from the front of those that wait.
    pub fn skip(&mut self, count: usize)
        requires { count ≤ length self.old.waiting }
        ensures taken { self.new ≡ record self.old {
          taken = self.old.taken + count;
          waiting = drop count
              self.old.waiting;
        } }
        ensures given { given_of self.new ≡ given_of self.old }
    {
        self.input.skip(count);
        self.taken += count as u64;
    }

    // Reads on if fewer bytes wait than are wanted, no further than `most` bytes: how many, and 0 only at the end of
    // the file. If the file is nearly too long, no more is read than is wanted, so that what stands before is looked at
    // first.
    fn read<D: Desk>(&mut self, desk: &mut D, least: usize, most: u64) -> Result<usize, ReadStop>
        requires opened { self.old.handle < length (D.state desk.old).opened }
        requires going { has_run_out (D.state desk.old) self.old.handle ≡ false }
        requires within { (least ≤ most) × (least ≤ MOST_WANTED) }
        requires less { length self.old.waiting < least }
        requires short { given_of self.old < longest_file }
        ensures reads { ReadsOn (D.state desk.old) (D.state desk.new) self.old self.new }
        ensures none { TakesNone (D.state desk.old) (D.state desk.new) self.old self.new }
        ensures count { IfOk result (λ n. length self.new.waiting ≡ length self.old.waiting + n) }
        ensures few { length self.new.waiting ≤ most }
        ensures end { IfOk result (λ n. n ≡ 0 → IsAtEnd (D.state desk.new) self.old.handle) }
        ensures runs_out { IfOk result (λ n. has_run_out (D.state desk.new) self.old.handle ≡ (n == 0)) }
        ensures goes_on { OnErr result (has_run_out (D.state desk.new) self.old.handle ≡ false) }
        ensures counts { OnOk result (SameCounts (D.state desk.old) (D.state desk.new)) }
        ensures short { OnOk result (given_of self.new < longest_file) }
        ensures err { IfErr result (StopsReading (D.state desk.old) (D.state desk.new) self.new least) }
    {
        let len = self.input.len() as u64;
        let given = self.taken + len;
        let ahead = (most - len).min(BUFFER as u64);
        let room = if given + ahead < LONGEST_FILE {
            ahead
        } else {
            (least as u64 - len).min(LONGEST_FILE - given)
        };
        let Ok(count) = self.input.read(desk, self.handle, room) else {
            return Err(ReadStop::Fault);
        };
        if given + count as u64 == LONGEST_FILE {
            return Err(ReadStop::TooLong);
        }
        Ok(count)
    }

    /// Reads on until so many bytes wait: false if the file ends before, and then it is not to be read again. It reads
    /// no further than `most` bytes wait. If it fails, as many bytes wait as were read.
    pub fn read_until<D: Desk>(
        &mut self,
        desk: &mut D,
        least: usize,
        most: u64,
    ) -> Result<bool, ReadStop>
        requires opened { self.old.handle < length (D.state desk.old).opened }
        requires going { has_run_out (D.state desk.old) self.old.handle ≡ false }
        requires within { (least ≤ most) × (least ≤ MOST_WANTED) }
        requires short { given_of self.old < longest_file }
        ensures reads { ReadsOn (D.state desk.old) (D.state desk.new) self.old self.new }
        ensures none { TakesNone (D.state desk.old) (D.state desk.new) self.old self.new }
        ensures limit { (limit : ℕ) → given_of self.old ≤ limit → self.old.taken + most ≤ limit
            → given_of self.new ≤ limit }
        ensures full { IfOk result (λ full. IsTrue full → least ≤ length self.new.waiting) }
        ensures end { IfOk result (λ full. full ≡ false
            → (length self.new.waiting < least) × IsAtEnd (D.state desk.new) self.old.handle) }
        ensures runs_out { IfOk result (λ full. has_run_out (D.state desk.new) self.old.handle ≡ not full) }
        ensures goes_on { OnErr result (has_run_out (D.state desk.new) self.old.handle ≡ false) }
        ensures counts { OnOk result (SameCounts (D.state desk.old) (D.state desk.new)) }
        ensures short { OnOk result (given_of self.new < longest_file) }
        ensures err { IfErr result (StopsReading (D.state desk.old) (D.state desk.new) self.new least) }
    {
        while self.input.len() < least {
            if self.read(desk, least, most)? == 0 {
                return Ok(false);
            }
        }
        Ok(true)
    }
}
