// The swapper as a machine between files.
use crate::phase::Phase;
use crate::stop::{SwapRan, SwapStop};
use bit_slice::OutOfMemory;
use feed_merge::FrameFeed;
use file_run::{Ending, Machine, Step, events_law};
use modulator::due_records_law;
use plp_config::{Plan, length_law, slot_time_law};
use ports::Desk;
use region_swap::Swapper;
use std::alloc::Global;
use ts_packet::SIZE;

/// A swapper that is fed with the bytes of two inputs and gives the bytes of its units: a feed of the frames of a T2-MI
/// stream, and what makes them anew with the packets of a region.
#[derive(Drop)]
pub struct SwapMachine<'p> {
    pub plan: &'p Plan,
    pub feed: FrameFeed<'p>,
    pub swapper: Swapper<'p>,
    // The frame under way.
    pub number: u64,
    // Whether a record came.
    pub joined: bool,
    // How many packets of the input were taken, whether it ended, and whether its rest is read.
    pub taken: u64,
    pub ended: bool,
    pub draining: bool,
    pub phase: Phase,
    pub ran: SwapRan,
}

impl<'p> Machine for SwapMachine<'p> {
    ghost use Rattle.swap_run.specs.AsMachine.{Becomes};
    ghost use Rattle.swap_run.specs.Steps.{step_of, left_of, reach_of};

    ghost Becomes = { Becomes };

    ghost inputs = { λ m. 2 };

    ghost next = { step_of };

    ghost left = { left_of };

    ghost reach = { reach_of };

    fn step(&self) -> Step {
        slot_time_law();
        length_law();
        self.next_step()
    }

    fn feed(&mut self, _input: usize, bytes: &[u8]) -> usize {
        events_law();
        due_records_law();
        match self.phase {
            Phase::Records => self.feed.feed(bytes),
            Phase::Packets => {
                self.take_packet(bytes);
                SIZE
            }
            _ => {
                self.drain_packet(bytes);
                SIZE
            }
        }
    }

    fn end_input(&mut self, _input: usize, bytes: &[u8]) {
        events_law();
        due_records_law();
        match self.phase {
            Phase::Records => self.feed.finish(),
            Phase::Packets => self.end_packets(bytes),
            _ => self.end_rest(bytes),
        }
    }

    fn give(&mut self, out: &mut [u8]) -> usize {
        events_law();
        match self.phase {
            Phase::Records => {
                self.look();
                0
            }
            Phase::Packets => {
                self.go_on();
                0
            }
            Phase::Drains => {
                self.finish();
                0
            }
            Phase::Units => self.give_units(out),
            _ => self.give_rest(out.first_chunk_mut().unwrap()),
        }
    }

    // Which frames of the stream have a timestamp of another moment.
    fn note<D: Desk>(&self, desk: &mut D) {
        self.feed.note(desk, 0);
    }
}

impl<'p> Ending for SwapMachine<'p> {
    ghost use Rattle.swap_run.specs.AsMachine.{ending_of};

    type Ran = SwapRan;

    type Stop = SwapStop;

    ghost ending = { ending_of };

    fn ending(&self) -> Result<SwapRan, SwapStop> {
        match self.phase {
            Phase::Stopped(why) => Err(why),
            _ => Ok(self.ran),
        }
    }
}

impl<'p> SwapMachine<'p> {
    ghost use Rattle.std.specs.Prelude.{◌≡◌, ◌<◌, [], IfOk, length};
    ghost use Rattle.region_swap.specs.StandsFor.{status_of};
    ghost use Rattle.swap_run.specs.AsMachine.{Becomes};

    /// A swapper to which nothing was fed, for the PLP at a place of a plan, and all its memory. Its one refusal is
    /// want of memory.
    pub fn open(alloc: Global, plan: &'p Plan, plp: usize) -> Result<SwapMachine<'p>, OutOfMemory>
        requires { plp < length plan.now.plps }
        ensures plan { IfOk result (λ m. m.plan.now ≡ plan.now) }
        ensures place { IfOk result (λ m. (status_of m.swapper).plp ≡ plp) }
        ensures becomes { IfOk result (λ m. Becomes m [] m) }
    {
        plan.rules_law();
        slot_time_law();
        length_law();
        let feed = FrameFeed::open(alloc, plan)?;
        let swapper = Swapper::open(alloc, plan, plp)?;
        Ok(SwapMachine {
            plan,
            feed,
            swapper,
            number: 0,
            joined: false,
            taken: 0,
            ended: false,
            draining: false,
            phase: Phase::Records,
            ran: SwapRan {
                frames: 0,
                muted: 0,
                unsent: 0,
                units: 0,
            },
        })
    }
}
