// Two feeds that are compared, as a machine over files.
use crate::answering::Carried;
use crate::comparing::copy_line;
use crate::counts::CompareRan;
use crate::stop::CompareStop;
use crate::tally::Tally;
use bit_slice::OutOfMemory;
use feed_merge::{FrameFeed, end_one, feed_one, next_step};
use file_run::{Ending, Machine, Step};
use plp_config::Plan;
use ports::Desk;
use std::alloc::Global;

/// Two feeds of a network that are fed with the bytes of two inputs, and the lines of their frames.
#[derive(Drop)]
pub struct CompareMachine<'p> {
    pub plan: &'p Plan,
    pub a: FrameFeed<'p>,
    pub b: FrameFeed<'p>,
    // Of each PLP, where what the frame before carries differs.
    pub carried: Carried,
    pub tally: Tally,
    // The number behind those of all records that were taken.
    pub next: u64,
    // The frame that was compared last, and the place of its PLP that is told next. Behind the last PLP none is left to
    // tell.
    pub last: u64,
    pub plp: usize,
    // Both have ended, and all is said.
    pub done: bool,
}

impl<'p> Machine for CompareMachine<'p> {
    ghost use Rattle.compare_run.specs.AsMachine.{Becomes};
    ghost use Rattle.compare_run.specs.Steps.{step_of, left_of, reach_of};

    ghost Becomes = { Becomes };

    ghost inputs = { λ m. 2 };

    ghost next = { step_of };

    ghost left = { left_of };

    ghost reach = { reach_of };

    fn step(&self) -> Step {
        if self.plp < self.carried.plps() {
            return Step::Give;
        }
        if self.done {
            return Step::End;
        }
        next_step(&self.a, &self.b)
    }

    fn feed(&mut self, input: usize, bytes: &[u8]) -> usize {
        feed_one(&mut self.a, &mut self.b, input, bytes)
    }

    fn end_input(&mut self, input: usize, bytes: &[u8]) {
        end_one(&mut self.a, &mut self.b, input, bytes);
    }

    fn give(&mut self, out: &mut [u8]) -> usize {
        let line = self.go_on();
        copy_line(&line, out)
    }

    // Which frames of each feed have a timestamp of another moment.
    fn note<D: Desk>(&self, desk: &mut D) {
        self.a.note(desk, 0);
        self.b.note(desk, 1);
    }
}

impl<'p> Ending for CompareMachine<'p> {
    ghost use Rattle.compare_run.specs.AsMachine.{ending_of};

    type Ran = CompareRan;

    type Stop = CompareStop;

    ghost ending = { ending_of };

    fn ending(&self) -> Result<CompareRan, CompareStop> {
        if !self.done {
            return Err(CompareStop::TooManyFrames);
        }
        if self.next == 0 {
            return Err(CompareStop::NoSuperframe);
        }
        let counts = self.tally.counts();
        match counts.first {
            Some(frame) => Err(CompareStop::Differs { frame }),
            None => Ok(counts),
        }
    }
}

impl<'p> CompareMachine<'p> {
    ghost use Rattle.std.specs.Prelude.{◌≡◌, [], IfOk};
    ghost use Rattle.compare_run.specs.AsMachine.{Becomes};

    /// Two feeds to which nothing was fed, for a plan, and all their memory. Its one refusal is want of memory.
    pub fn open(alloc: Global, plan: &'p Plan) -> Result<CompareMachine<'p>, OutOfMemory>
        ensures plan { IfOk result (λ m. m.plan.now ≡ plan.now) }
        ensures becomes { IfOk result (λ m. Becomes m [] m) }
    {
        let a = FrameFeed::open(alloc, plan)?;
        let b = FrameFeed::open(alloc, plan)?;
        let carried = Carried::open(alloc, plan)?;
        let plps = carried.plps();
        Ok(CompareMachine {
            plan,
            a,
            b,
            carried,
            tally: Tally::new(),
            next: 0,
            last: 0,
            plp: plps,
            done: false,
        })
    }
}
