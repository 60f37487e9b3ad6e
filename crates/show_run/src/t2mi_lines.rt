// The lines of the T2-MI packets in units.
ghost use Rattle.std.specs.Prelude.{◌≡◌, ◌<◌, ◌+◌, ◌-◌, ◌≤◌, ℕ, false, List, length, take, IfOk};
ghost use Rattle.file_run.specs.Reading.{longest_file};
ghost use Rattle.ts_packet.specs.declared.sizes.TheConstants.{SIZE};
ghost use Rattle.t2mi_stream.specs.Events.{UnpiperEvent};
ghost use Rattle.t2mi_stream.specs.UnpiperStandsFor.{UnpiperStandsFor, AllReleased, fed_len, is_ready};

use crate::count_line::{count_line, give_line};
use crate::packet_line::packet_line;
use bit_slice::OutOfMemory;
use file_run::{BUFFER, Line, Machine, Step, events_law};
use std::alloc::Global;
use t2mi_packet::view_known;
use t2mi_stream::{
    Unpiper, accepted_front_law, events_push_law, few_packets_law, first_pid_law,
    packet_places_law, unit_pid,
};
use ts_packet::SIZE;

/// How far the search for packets has come.
#[derive(Clone, Copy, Debug, PartialEq, Eq)]
pub enum Search {
    /// No unit told a PID.
    Seeks,
    /// Packets are looked for on the PID that a unit told.
    Unpipes,
    /// The file has ended.
    Finished,
}

/// A line for each T2-MI packet in the units of a file, on the PID of the first unit that tells one, and last their
/// number.
#[derive(Drop)]
pub struct T2miLines {
    pub(crate) search: Search,
    // All bytes that came, and those in front of the unit that told the PID.
    at: u64,
    base: u64,
    // That unit, and how much of it the unpiper took.
    unit: [u8; SIZE],
    from: usize,
    unpiper: Unpiper,
    // The packets whose lines were given.
    count: u64,
    // The line of their number.
    line: Line,
    ghost small: { at ≤ longest_file },
    ghost inside: { from ≤ SIZE },
    ghost fed: { fed_len unpiper + (SIZE - from) ≤ at },
}

impl T2miLines {
    ghost use Rattle.show_run.specs.T2miLines.{IsNew};

    /// Nothing came. It takes all the memory that it needs.
    pub fn open(alloc: Global) -> Result<T2miLines, OutOfMemory>
        ensures { IfOk result IsNew }
    {
        Ok(T2miLines {
            search: Search::Seeks,
            at: 0,
            base: 0,
            unit: [0; SIZE],
            from: SIZE,
            unpiper: Unpiper::open(alloc, 0)?,
            count: 0,
            line: Line::new(),
        })
    }
}

// The first unit of some bytes.
fn front_unit(bytes: &[u8]) -> [u8; SIZE]
    requires { SIZE ≤ length bytes.now }
    ensures { result ≡ take SIZE bytes.now }
{
    let mut unit = [0; SIZE];
    unit.copy_from_slice(&bytes[..SIZE]);
    unit
}

// If no packet waits of an unpiper, all were released. It does nothing.
fn released_law(unpiper: &Unpiper)
    ensures { is_ready unpiper.now ≡ false → (pid : ℕ) (events : List UnpiperEvent)
        → UnpiperStandsFor unpiper.now pid events
        → AllReleased pid events }
{
    unpiper.is_ready();
}

impl T2miLines {
    ghost use Rattle.std.specs.Prelude.{ℕ, List, [], ◌∷◌, ◌++◌, true, false, Some, None};
    ghost use Rattle.file_run.specs.Events.{Event, Fed, Gave, fed, gave};
    ghost use Rattle.file_run.specs.declared.machine.TheConstants.{PIECE};
    ghost use Rattle.show_run.specs.declared.t2mi_lines.Search.TheVariants.{Seeks, Unpipes};
    ghost use Rattle.ts_packet.specs.FieldsIn.{fields_in};
    ghost use Rattle.t2mi_stream.specs.FirstPid.{pid_of, t2mi_packets_in};
    ghost use Rattle.file_run.specs.Steps.{Needs};
    ghost use Rattle.show_run.specs.T2miLines.{Comes, left_of, next_of};
    ghost use Rattle.show_run.specs.T2miText.{place_lines};

    /// How many packets were seen. Where more bytes are wanted, the lines of all packets in those that came were given.
    pub(crate) fn count(&self) -> u64
        ensures count { result ≡ self.now.count }
        ensures all { (start : T2miLines) (events : List Event) (least : ℕ) → Comes start events self.now
            → Needs (next_of self.now) 0 least → gave events ≡ place_lines (t2mi_packets_in (fed 0 events)) }
    {
        first_pid_law();
        released_law(&self.unpiper);
        self.count
    }

    // Passes a unit that tells no PID.
    fn pass(&mut self, unit: [u8; SIZE])
        requires seeks { self.old.search ≡ Seeks }
        requires silent { pid_of (fields_in unit) ≡ None }
        requires room { self.old.at + SIZE ≤ longest_file }
        ensures becomes { (start : T2miLines) (events : List Event) → Comes start events self.old
            → Comes start (events ++ Fed 0 unit ∷ []) self.new }
        ensures at { self.new.at ≡ self.old.at + SIZE }
    {
        events_law();
        first_pid_law();
        self.at += unit.len() as u64;
    }

    // Begins to look for packets with the unit that tells the PID.
    fn find(&mut self, pid: u16, unit: [u8; SIZE])
        requires seeks { self.old.search ≡ Seeks }
        requires tells { pid_of (fields_in unit) ≡ Some pid }
        requires room { self.old.at + SIZE ≤ longest_file }
        ensures becomes { (start : T2miLines) (events : List Event) → Comes start events self.old
            → Comes start (events ++ Fed 0 unit ∷ []) self.new }
        ensures at { self.new.at ≡ self.old.at + SIZE }
    {
        events_law();
        self.unpiper.begin(pid);
        self.base = self.at;
        self.at += unit.len() as u64;
        self.unit = unit;
        self.from = 0;
        self.search = Search::Unpipes;
    }

    // Takes the next unit of a file in which none before told a PID.
    fn seek(&mut self, unit: [u8; SIZE])
        requires seeks { self.old.search ≡ Seeks }
        requires room { self.old.at + SIZE ≤ longest_file }
        ensures becomes { (start : T2miLines) (events : List Event) → Comes start events self.old
            → Comes start (events ++ Fed 0 unit ∷ []) self.new }
        ensures at { self.new.at ≡ self.old.at + SIZE }
    {
        match unit_pid(unit) {
            Some(pid) => self.find(pid, unit),
            None => self.pass(unit),
        }
    }

    // Gives the line of the packet that waits, and gives the packet up. There are no more packets than bytes, and none
    // behind the last.
    fn give_packet(&mut self, out: &mut [u8]) -> usize
        requires unpipes { self.old.search ≡ Unpipes }
        requires ready { is_ready self.old.unpiper ≡ true }
        requires room { PIECE ≤ length out.old }
        ensures becomes { (start : T2miLines) (events : List Event) → Comes start events self.old
            → Comes start (events ++ Gave (take result out.new) ∷ []) self.new }
        ensures count { result ≤ length out.old }
        ensures left { left_of self.new < left_of self.old }
        ensures at { self.new.at ≡ self.old.at }
    {
        events_law();
        events_push_law();
        packet_places_law();
        few_packets_law();
        let place = self.base.saturating_add(self.unpiper.place());
        let mut line = packet_line(b"place=", place, &view_known(self.unpiper.bytes()));
        self.unpiper.release();
        self.count = self.count.saturating_add(1);
        give_line(&mut line, out)
    }

    // Feeds the unpiper with what is left of the unit that told the PID.
    fn go_on(&mut self)
        requires unpipes { self.old.search ≡ Unpipes }
        requires idle { is_ready self.old.unpiper ≡ false }
        requires some { self.old.from < SIZE }
        ensures becomes { (start : T2miLines) (events : List Event) → Comes start events self.old
            → Comes start (events ++ Gave [] ∷ []) self.new }
        ensures left { left_of self.new < left_of self.old }
        ensures at { self.new.at ≡ self.old.at }
    {
        events_law();
        events_push_law();
        accepted_front_law();
        let unit = self.unit;
        self.from += self.unpiper.feed(&unit[self.from..]);
    }

    // Feeds the unpiper: how many bytes it takes.
    fn unpipe(&mut self, bytes: &[u8]) -> usize
        requires unpipes { self.old.search ≡ Unpipes }
        requires idle { is_ready self.old.unpiper ≡ false }
        requires all { self.old.from ≡ SIZE }
        requires some { 0 < length bytes.now }
        requires room { self.old.at + length bytes.now ≤ longest_file }
        ensures becomes { (start : T2miLines) (events : List Event) → Comes start events self.old
            → Comes start (events ++ Fed 0 (take result bytes.now) ∷ []) self.new }
        ensures count { (0 < result) × (result ≤ length bytes.now) }
        ensures at { self.new.at ≡ self.old.at + result }
    {
        events_law();
        events_push_law();
        accepted_front_law();
        let count = self.unpiper.feed(bytes);
        self.at += count as u64;
        count
    }
}

impl Machine for T2miLines {
    ghost use Rattle.std.specs.Prelude.{◌≡◌, ◌<◌, ◌≤◌, ◌+◌, ◌++◌, ◌∷◌, ℕ, List, [], length, take};
    ghost use Rattle.file_run.specs.declared.input.TheConstants.{BUFFER};
    ghost use Rattle.file_run.specs.Events.{Event, Fed, Gave};
    ghost use Rattle.show_run.specs.T2miLines.{Comes, next_of, left_of};

    ghost Becomes = { Comes };

    ghost inputs = { λ m. 1 };

    ghost next = { next_of };

    ghost left = { left_of };

    ghost reach = { λ m input. m.at + BUFFER };

    fn step(&self) -> Step {
        let most = BUFFER as u64;
        match self.search {
            Search::Seeks => Step::Read {
                input: 0,
                least: SIZE,
                most,
            },
            Search::Unpipes if self.unpiper.is_ready() || self.from < SIZE => Step::Give,
            Search::Unpipes => Step::Read {
                input: 0,
                least: 1,
                most,
            },
            Search::Finished if self.line.is_empty() => Step::End,
            Search::Finished => Step::Give,
        }
    }

    fn feed(&mut self, _input: usize, bytes: &[u8]) -> usize {
        if self.search == Search::Unpipes {
            return self.unpipe(bytes);
        }
        self.seek(front_unit(bytes));
        SIZE
    }

    fn end_input(&mut self, _input: usize, bytes: &[u8]) {
        events_law();
        first_pid_law();
        released_law(&self.unpiper);
        self.at += bytes.len() as u64;
        self.search = Search::Finished;
        self.line = count_line(self.count);
    }

    fn give(&mut self, out: &mut [u8]) -> usize {
        events_law();
        if self.search == Search::Finished {
            return give_line(&mut self.line, out);
        }
        if self.unpiper.is_ready() {
            return self.give_packet(out);
        }
        self.go_on();
        0
    }
}
