// The steps of a swapper.
ghost use Rattle.std.specs.Prelude.{◌≡◌, ◌<◌, ◌≤◌, ◌^◌, ◌++◌, ◌∷◌, ℕ, List, [], false, true, Some, None, length, take};
ghost use Rattle.plp_config.specs.declared.config.Config.{Config};
ghost use Rattle.plp_config.specs.declared.moment.TheConstants.{MOST_FRAMES};
ghost use Rattle.ts_packet.specs.declared.sizes.TheConstants.{SIZE};
ghost use Rattle.frame_groups.specs.declared.waiting.Waiting.{Waiting};
ghost use Rattle.file_run.specs.Events.{Event, Fed, Ended, Gave};
ghost use Rattle.file_run.specs.declared.machine.TheConstants.{PIECE};
ghost use Rattle.file_run.specs.declared.machine.Step.TheVariants.{Give};
ghost use Rattle.feed_merge.specs.FeedStandsFor.{waiting_of, has_ended};
ghost use Rattle.feed_merge.specs.Reading.{is_idle};
ghost use Rattle.region_swap.specs.StandsFor.{wants_of};
ghost use Rattle.swap_run.specs.Shown.{Shown, HasShown};
ghost use Rattle.swap_run.specs.Steps.{record_step, packet_step, drain_step, step_of, reach_of, left_of};
ghost use Rattle.swap_run.specs.declared.phase.Phase.TheVariants as phase;

use crate::machine::SwapMachine;
use crate::phase::Phase;
use crate::stop::SwapStop;
use feed_merge::is_idle;
use file_run::{AHEAD, Step, events_law};
use frame_groups::Waiting;
use modulator::due_records_law;
use plp_config::{MOST_FRAMES, block_law, length_law, slot_time_law};
use record_laws::fit_law;
use stream_laws::formed_law;
use ts_packet::{SIZE, SYNC, TsPacket};

// No more packets than these are to wait.
const PACKETS: u64 = 1 << 30;

// The inputs: the T2-MI stream, and the transport stream of the region.
const T2MI: usize = 0;

const REGION: usize = 1;

// It wants bytes of the T2-MI stream until a record waits or it ends.
fn record_step(idle: bool) -> Step
    ensures { result ≡ record_step idle }
{
    if !idle {
        return Step::Give;
    }
    Step::Read {
        input: T2MI,
        least: 1,
        most: AHEAD,
    }
}

// It wants so many packets.
fn packet_step(wants: u64) -> Step
    ensures { result ≡ packet_step wants }
{
    if wants == 0 {
        return Step::Give;
    }
    Step::Read {
        input: REGION,
        least: SIZE,
        most: SIZE as u64 * wants.min(PACKETS),
    }
}

// It wants the rest of the input.
fn drain_step(ended: bool) -> Step
    ensures { result ≡ drain_step ended }
{
    if ended {
        return Step::Give;
    }
    Step::Read {
        input: REGION,
        least: SIZE,
        most: AHEAD,
    }
}

impl<'p> SwapMachine<'p> {
    /// What it does next.
    pub fn next_step(&self) -> Step
        ensures { result ≡ step_of self.now }
    {
        match self.phase {
            Phase::Records => record_step(is_idle(&self.feed)),
            Phase::Packets => packet_step(self.swapper.wants()),
            Phase::Drains => drain_step(self.ended),
            Phase::Units | Phase::Rests => Step::Give,
            Phase::Done | Phase::Stopped(_) => Step::End,
        }
    }

    // The next packet of the input is bad.
    fn refuse(&mut self)
        ensures { self.new ≡ record self.old { phase = phase.Stopped (SwapStop.InputRefused self.old.taken) } }
    {
        self.phase = Phase::Stopped(SwapStop::InputRefused { packet: self.taken });
    }

    /// Offers the packet at the front of the bytes, or stops at it.
    pub fn take_packet(&mut self, bytes: &[u8])
        requires packets { self.old.phase ≡ phase.Packets }
        requires wanted { 0 < wants_of self.old.swapper }
        requires long { SIZE ≤ length bytes.now }
        requires few { self.old.taken < 2 ^ 60 }
        ensures shown { (c : Config) (plp : ℕ) (events : List Event) → Shown c plp events self.old
            → Shown c plp (events ++ Fed 1 (take SIZE bytes.now) ∷ []) self.new }
        ensures reach { (other : ℕ) → reach_of self.old other ≤ reach_of self.new other }
    {
        events_law();
        let packet = TsPacket::front_of(bytes);
        if packet.as_array()[0] != SYNC {
            self.refuse();
            return;
        }
        self.swapper.offer(&packet);
        self.taken += 1;
    }

    /// Counts the packet at the front of the bytes, or stops at it.
    pub fn drain_packet(&mut self, bytes: &[u8])
        requires drains { self.old.phase ≡ phase.Drains }
        requires going { self.old.ended ≡ false }
        requires long { SIZE ≤ length bytes.now }
        requires few { self.old.taken < 2 ^ 60 }
        requires came { ∥ HasShown self.old ∥₁ }
        ensures shown { (c : Config) (plp : ℕ) (events : List Event) → Shown c plp events self.old
            → Shown c plp (events ++ Fed 1 (take SIZE bytes.now) ∷ []) self.new }
        ensures reach { (other : ℕ) → reach_of self.old other ≤ reach_of self.new other }
    {
        events_law();
        let packet = TsPacket::front_of(bytes);
        if packet.as_array()[0] != SYNC {
            self.refuse();
            return;
        }
        self.taken += 1;
        self.ran.unsent += 1;
    }

    /// The input has ended before the frame under way begins: null packets follow.
    pub fn end_packets(&mut self, bytes: &[u8])
        requires packets { self.old.phase ≡ phase.Packets }
        requires wanted { 0 < wants_of self.old.swapper }
        requires short { length bytes.now < SIZE }
        ensures shown { (c : Config) (plp : ℕ) (events : List Event) → Shown c plp events self.old
            → Shown c plp (events ++ Ended 1 bytes.now ∷ []) self.new }
        ensures reach { (other : ℕ) → reach_of self.old other ≤ reach_of self.new other }
    {
        events_law();
        let rest = bytes.len();
        if rest > 0 {
            self.refuse();
            return;
        }
        self.swapper.end_input();
        self.ended = true;
    }

    /// The input has ended behind its rest.
    pub fn end_rest(&mut self, bytes: &[u8])
        requires drains { self.old.phase ≡ phase.Drains }
        requires going { self.old.ended ≡ false }
        requires short { length bytes.now < SIZE }
        ensures shown { (c : Config) (plp : ℕ) (events : List Event) → Shown c plp events self.old
            → Shown c plp (events ++ Ended 1 bytes.now ∷ []) self.new }
        ensures reach { (other : ℕ) → reach_of self.old other ≤ reach_of self.new other }
    {
        events_law();
        let rest = bytes.len();
        if rest > 0 {
            self.refuse();
            return;
        }
        self.ended = true;
    }

    /// Looks at the record that waits; if none comes, the rest of the input follows.
    pub fn look(&mut self)
        requires came { ∥ HasShown self.old ∥₁ }
        requires records { self.old.phase ≡ phase.Records }
        requires busy { is_idle (waiting_of self.old.feed) (has_ended self.old.feed) ≡ false }
        ensures shown { (c : Config) (plp : ℕ) (events : List Event) → Shown c plp events self.old
            → Shown c plp events self.new }
        ensures left { left_of self.new < left_of self.old }
        ensures reach { (other : ℕ) → reach_of self.old other ≤ reach_of self.new other }
    {
        match self.feed.waiting() {
            Some(waiting) => self.meet(waiting),
            None => self.part(),
        }
    }

    // A record waits.
    fn meet(&mut self, waiting: Waiting)
        requires came { ∥ HasShown self.old ∥₁ }
        requires records { self.old.phase ≡ phase.Records }
        requires waits { waiting_of self.old.feed ≡ Some waiting }
        ensures shown { (c : Config) (plp : ℕ) (events : List Event) → Shown c plp events self.old
            → Shown c plp events self.new }
        ensures left { left_of self.new < left_of self.old }
        ensures reach { (other : ℕ) → reach_of self.old other ≤ reach_of self.new other }
    {
        due_records_law();
        slot_time_law();
        length_law();
        if waiting.frame >= MOST_FRAMES {
            self.phase = Phase::Stopped(SwapStop::TooManyFrames);
            return;
        }
        self.phase = Phase::Packets;
    }

    // No record comes.
    fn part(&mut self)
        requires came { ∥ HasShown self.old ∥₁ }
        requires records { self.old.phase ≡ phase.Records }
        requires none { waiting_of self.old.feed ≡ None }
        requires over { has_ended self.old.feed ≡ true }
        ensures shown { (c : Config) (plp : ℕ) (events : List Event) → Shown c plp events self.old
            → Shown c plp events self.new }
        ensures left { left_of self.new < left_of self.old }
        ensures reach { (other : ℕ) → reach_of self.old other ≤ reach_of self.new other }
    {
        slot_time_law();
        length_law();
        if !self.joined {
            self.phase = Phase::Stopped(SwapStop::NoSuperframe);
            return;
        }
        self.draining = true;
        self.phase = Phase::Drains;
    }

    /// Goes on to the frame of the record that waits, or begins it.
    pub fn go_on(&mut self)
        requires came { ∥ HasShown self.old ∥₁ }
        requires packets { self.old.phase ≡ phase.Packets }
        requires wanted { wants_of self.old.swapper ≡ 0 }
        ensures shown { (c : Config) (plp : ℕ) (events : List Event) → Shown c plp events self.old
            → Shown c plp events self.new }
        ensures left { left_of self.new < left_of self.old }
        ensures reach { (other : ℕ) → reach_of self.old other ≤ reach_of self.new other }
    {
        let waiting = self.feed.waiting().unwrap();
        if self.number < waiting.frame {
            self.pass_frame(waiting);
            return;
        }
        self.take_record(waiting);
    }

    // Goes on behind a frame that has no record.
    fn pass_frame(&mut self, waiting: Waiting)
        requires came { ∥ HasShown self.old ∥₁ }
        requires packets { self.old.phase ≡ phase.Packets }
        requires wanted { wants_of self.old.swapper ≡ 0 }
        requires waits { waiting_of self.old.feed ≡ Some waiting }
        requires before { self.old.number < waiting.frame }
        ensures shown { (c : Config) (plp : ℕ) (events : List Event) → Shown c plp events self.old
            → Shown c plp events self.new }
        ensures left { left_of self.new < left_of self.old }
        ensures reach { (other : ℕ) → reach_of self.old other ≤ reach_of self.new other }
    {
        slot_time_law();
        length_law();
        self.swapper.pass();
        self.number += 1;
    }

    // Begins the frame of the record that waits, or leaves it behind if it is muted.
    fn take_record(&mut self, waiting: Waiting)
        requires came { ∥ HasShown self.old ∥₁ }
        requires packets { self.old.phase ≡ phase.Packets }
        requires wanted { wants_of self.old.swapper ≡ 0 }
        requires waits { waiting_of self.old.feed ≡ Some waiting }
        requires here { waiting.frame ≤ self.old.number }
        ensures shown { (c : Config) (plp : ℕ) (events : List Event) → Shown c plp events self.old
            → Shown c plp events self.new }
        ensures left { left_of self.new < left_of self.old }
        ensures reach { (other : ℕ) → reach_of self.old other ≤ reach_of self.new other }
    {
        due_records_law();
        formed_law();
        block_law();
        fit_law();
        self.joined = true;
        if waiting.mute.is_some() {
            self.feed.skip();
            self.swapper.pass();
            self.ran.muted += 1;
            self.number += 1;
            self.phase = Phase::Records;
            return;
        }
        let frame = self.feed.frame();
        self.swapper.frame(&frame);
        self.ran.frames += 1;
        self.phase = Phase::Units;
    }

    /// Gives units of the frame under way, to the front of these bytes, and goes on behind the last: how many bytes.
    pub fn give_units(&mut self, out: &mut [u8]) -> usize
        requires came { ∥ HasShown self.old ∥₁ }
        requires units { self.old.phase ≡ phase.Units }
        requires room { PIECE ≤ length out.old }
        ensures count { result ≤ length out.old }
        ensures shown { (c : Config) (plp : ℕ) (events : List Event) → Shown c plp events self.old
            → Shown c plp (events ++ Gave (take result out.new) ∷ []) self.new }
        ensures left { left_of self.new < left_of self.old }
        ensures reach { (other : ℕ) → reach_of self.old other ≤ reach_of self.new other }
    {
        events_law();
        due_records_law();
        let frame = self.feed.frame();
        let (len, full) = self.swapper.give(&frame, out);
        self.ran.add_units(len / SIZE);
        if full {
            return len;
        }
        self.feed.skip();
        self.swapper.pass();
        self.number += 1;
        self.phase = Phase::Records;
        len
    }

    /// No more frames come.
    pub fn finish(&mut self)
        requires came { ∥ HasShown self.old ∥₁ }
        requires drains { self.old.phase ≡ phase.Drains }
        requires over { self.old.ended ≡ true }
        ensures shown { (c : Config) (plp : ℕ) (events : List Event) → Shown c plp events self.old
            → Shown c plp events self.new }
        ensures left { left_of self.new < left_of self.old }
        ensures reach { (other : ℕ) → reach_of self.old other ≤ reach_of self.new other }
    {
        self.swapper.finish();
        self.phase = Phase::Rests;
    }

    /// Gives the next unit behind the end, or comes to its own end: how many bytes.
    pub fn give_rest(&mut self, unit: &mut [u8; SIZE]) -> usize
        requires came { ∥ HasShown self.old ∥₁ }
        requires rests { self.old.phase ≡ phase.Rests }
        ensures count { result ≤ length unit.new }
        ensures whole { length unit.new ≡ SIZE }
        ensures shown { (c : Config) (plp : ℕ) (events : List Event) → Shown c plp events self.old
            → Shown c plp (events ++ Gave (take result unit.new) ∷ []) self.new }
        ensures left { left_of self.new < left_of self.old }
        ensures reach { (other : ℕ) → reach_of self.old other ≤ reach_of self.new other }
    {
        events_law();
        if self.swapper.rest(unit) {
            self.ran.units += 1;
            return SIZE;
        }
        self.phase = Phase::Done;
        0
    }
}
