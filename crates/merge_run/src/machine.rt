// The merger as a machine between files.
use crate::phase::Phase;
use crate::stop::{MergeRan, MergeStop};
use bit_slice::OutOfMemory;
use feed_merge::{Feed, FrameFeed, Merger, end_one, feed_one, next_step};
use file_run::{Ending, FeedCounts, Machine, Step, events_law};
use plp_config::Plan;
use ports::Desk;
use std::alloc::Global;

/// A merger that is fed with the bytes of two inputs and gives the bytes of its units: two feeds of a network, and the
/// merger of their frames.
#[derive(Drop)]
pub struct MergeMachine<'p> {
    pub plan: &'p Plan,
    pub a: FrameFeed<'p>,
    pub b: FrameFeed<'p>,
    pub merger: Merger<'p>,
    // The feed whose frame was begun last.
    pub source: Feed,
    // The number behind those of all records that were taken.
    pub next: u64,
    pub phase: Phase,
    pub ran: MergeRan,
    // For people: no definition reads it.
    pub counts: FeedCounts,
}

impl<'p> Machine for MergeMachine<'p> {
    ghost use Rattle.merge_run.specs.AsMachine.{Becomes};
    ghost use Rattle.merge_run.specs.Steps.{step_of, left_of, reach_of};

    ghost Becomes = { Becomes };

    ghost inputs = { λ m. 2 };

    ghost next = { step_of };

    ghost left = { left_of };

    ghost reach = { reach_of };

    fn step(&self) -> Step {
        match self.phase {
            Phase::Reads => next_step(&self.a, &self.b),
            Phase::Gives | Phase::Rests => Step::Give,
            Phase::Done => Step::End,
        }
    }

    fn feed(&mut self, input: usize, bytes: &[u8]) -> usize {
        feed_one(&mut self.a, &mut self.b, input, bytes)
    }

    fn end_input(&mut self, input: usize, bytes: &[u8]) {
        end_one(&mut self.a, &mut self.b, input, bytes);
    }

    fn give(&mut self, out: &mut [u8]) -> usize {
        events_law();
        match self.phase {
            Phase::Reads => {
                self.go_on();
                0
            }
            Phase::Gives => self.give_units(out),
            _ => self.give_rest(out.first_chunk_mut().unwrap()),
        }
    }

    // What each feed had whole, and which frames of it have a timestamp of another moment.
    fn note<D: Desk>(&self, desk: &mut D) {
        self.counts.note(desk, 2);
        self.a.note(desk, 0);
        self.b.note(desk, 1);
    }
}

impl<'p> Ending for MergeMachine<'p> {
    ghost use Rattle.merge_run.specs.AsMachine.{ending_of};

    type Ran = MergeRan;

    type Stop = MergeStop;

    ghost ending = { ending_of };

    fn ending(&self) -> Result<MergeRan, MergeStop> {
        match self.phase {
            Phase::Done => {
                if self.next == 0 {
                    return Err(MergeStop::NoSuperframe);
                }
                Ok(self.ran)
            }
            _ => Err(MergeStop::TooManyFrames),
        }
    }
}

impl<'p> MergeMachine<'p> {
    ghost use Rattle.std.specs.Prelude.{◌≡◌, [], IfOk};
    ghost use Rattle.merge_run.specs.AsMachine.{Becomes};

    /// A merger to which nothing was fed, for a plan, and all its memory. Its one refusal is want of memory.
    pub fn open(alloc: Global, plan: &'p Plan) -> Result<MergeMachine<'p>, OutOfMemory>
        ensures plan { IfOk result (λ m. m.plan.now ≡ plan.now) }
        ensures becomes { IfOk result (λ m. Becomes m [] m) }
    {
        plan.rules_law();
        let a = FrameFeed::open(alloc, plan)?;
        let b = FrameFeed::open(alloc, plan)?;
        Ok(MergeMachine {
            plan,
            a,
            b,
            merger: Merger::new(plan),
            source: Feed::A,
            next: 0,
            phase: Phase::Reads,
            ran: MergeRan {
                frames: 0,
                a: 0,
                b: 0,
                units: 0,
            },
            counts: FeedCounts::none(),
        })
    }
}
