// The lines of T2-MI packets that stand back to back.
ghost use Rattle.std.specs.Prelude.{◌≡◌, ◌<◌, ◌≤◌, ◌-◌, length, vec_len, vec_capacity, IfOk};
ghost use Rattle.file_run.specs.Reading.{longest_file};
ghost use Rattle.t2mi_packet.specs.declared.reading.TheConstants.{LARGEST};

use crate::count_line::{count_line, give_line};
use crate::front::{front_line, lacking};
use bit_slice::OutOfMemory;
use file_run::{BUFFER, Line, Machine, Step, events_law};
use std::alloc::Global;
use t2mi_packet::{LARGEST, PacketWhy, spell_law};

/// Where the lines are.
#[derive(Clone, Copy, Debug, PartialEq, Eq)]
pub enum Phase {
    /// Packets are read.
    Reads,
    /// No packet begins where one must, for this reason.
    Refused(PacketWhy),
    /// The file was nothing but packets.
    Finished,
}

/// A line for each T2-MI packet of a file in which they stand back to back, and last their number.
#[derive(Drop)]
pub struct PacketLines {
    // All bytes that came, and the packets that were seen.
    pub(crate) at: u64,
    pub(crate) count: u64,
    pub(crate) phase: Phase,
    // What came of the packet under way.
    pub(crate) bytes: Vec<u8>,
    // The line that is given next.
    line: Line,
    ghost small: { at ≤ longest_file },
    ghost counted: { count ≤ at },
    ghost inside: { vec_len bytes ≤ at },
    ghost room: { (vec_len bytes ≤ LARGEST) × (LARGEST ≤ vec_capacity bytes) },
}

impl PacketLines {
    ghost use Rattle.show_run.specs.PacketLines.{IsNew, Sees};

    /// No packet was seen. It takes all the memory that it needs.
    pub fn open(alloc: Global) -> Result<PacketLines, OutOfMemory>
        ensures { IfOk result IsNew }
    {
        Ok(PacketLines {
            at: 0,
            count: 0,
            phase: Phase::Reads,
            bytes: Vec::with_capacity(alloc, LARGEST)?,
            line: Line::new(),
        })
    }

    /// The place of the packet under way.
    pub(crate) fn place(&self) -> u64
        ensures { result ≡ self.now.at - length self.now.bytes.items }
    {
        self.at - self.bytes.len() as u64
    }

    // Looks at the packet that has come whole.
    fn see(&mut self)
        requires { self.old.count < self.old.at }
        ensures sees { Sees self.old self.new }
        ensures at { self.new.at ≡ self.old.at }
    {
        match front_line(&self.bytes, self.place()) {
            Ok((line, _)) => {
                self.line = line;
                self.count += 1;
                self.bytes.clear();
            }
            Err(why) => self.phase = Phase::Refused(why),
        }
    }
}

impl Machine for PacketLines {
    ghost use Rattle.std.specs.Prelude.{◌≡◌, ◌<◌, ◌≤◌, ◌+◌, length};
    ghost use Rattle.file_run.specs.declared.input.TheConstants.{BUFFER};
    ghost use Rattle.show_run.specs.PacketLines.{Comes, next_of, left_of};

    ghost Becomes = { Comes };

    ghost inputs = { λ m. 1 };

    ghost next = { next_of };

    ghost left = { left_of };

    ghost reach = { λ m input. m.at + BUFFER };

    fn step(&self) -> Step {
        if !self.line.is_empty() {
            return Step::Give;
        }
        match self.phase {
            Phase::Reads => Step::Read {
                input: 0,
                least: 1,
                most: BUFFER as u64,
            },
            Phase::Refused(_) | Phase::Finished => Step::End,
        }
    }

    fn feed(&mut self, _input: usize, bytes: &[u8]) -> usize {
        events_law();
        spell_law();
        let count = lacking(&self.bytes).min(bytes.len());
        self.bytes.extend_from_slice(&bytes[..count]).unwrap();
        self.at += count as u64;
        if lacking(&self.bytes) == 0 {
            self.see();
        }
        count
    }

    fn end_input(&mut self, _input: usize, _bytes: &[u8]) {
        events_law();
        if self.bytes.is_empty() {
            self.line = count_line(self.count);
            self.phase = Phase::Finished;
        } else {
            self.phase = Phase::Refused(PacketWhy::Short);
        }
    }

    fn give(&mut self, out: &mut [u8]) -> usize {
        events_law();
        give_line(&mut self.line, out)
    }
}
