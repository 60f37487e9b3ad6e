// Several feeds and a sender as a machine between files.
ghost use Rattle.std.specs.Prelude.{◌≡◌, ◌<◌, ◌≤◌, ◌^◌, ℕ, Some, true, false, length, slice_get};
ghost use Rattle.plp_config.specs.declared.moment.TheConstants.{MOST_FRAMES};
ghost use Rattle.open_group.specs.FrameBytes.{is_frame};
ghost use Rattle.mended_frames.specs.StandsFor.{Feed, AreOf, pooled_of};
ghost use Rattle.mended_frames.specs.declared.mender.Source.{Source};
ghost use Rattle.mended_frames.specs.declared.mender.Source.TheVariants as source;
ghost use Rattle.spaced_frames.specs.StandsFor.{config_of, is_idle, has_finished};
ghost use Rattle.mend_run.specs.declared.phase.Phase.TheVariants as at;

use crate::phase::Phase;
use crate::row::{end_one, feed_one, next_step, open_feeds};
use crate::stop::{MendRan, MendStop};
use crate::tally::Tally;
use bit_slice::OutOfMemory;
use feed_events::EventFeed;
use file_run::{Ending, FeedCounts, Machine, Step, events_law};
use frame_weave::MarkedGroup;
use mended_frames::Mender;
use plp_config::Plan;
use ports::{Desk, NOT_SENT, Note};
use spaced_frames::Sender;
use std::alloc::Global;

/// Feeds of a network that are fed with the bytes of several inputs, and a sender that gives the bytes of the units of
/// the frames that are made of them.
#[derive(Drop)]
pub struct MendMachine<'p> {
    pub(crate) plan: &'p Plan,
    pub(crate) feeds: Vec<EventFeed<MarkedGroup<'p>>>,
    pub(crate) mender: Mender<'p>,
    pub(crate) sender: Sender<'p>,
    pub(crate) phase: Phase,
    pub(crate) tally: Tally,
    // For people: no definition reads them.
    pub(crate) counts: FeedCounts,
    pub(crate) missing: Note,
    ghost pid: { plan.now.pid < 2 ^ 13 },
    ghost of: { AreOf plan.now feeds.items },
    ghost mends: { mender.plan.now ≡ plan.now },
    ghost sends: { config_of sender ≡ plan.now },
    ghost early: { (n : ℕ) (from : Source) → phase ≡ at.Sends n from → n < MOST_FRAMES },
    ghost inside: { (n i : ℕ) → phase ≡ at.Sends n (source.Feed i) → i < length feeds.items },
    ghost lends: { (n i : ℕ) (f : Feed) → phase ≡ at.Sends n (source.Feed i) → slice_get feeds.items i ≡ Some f
        → is_frame (pooled_of f) ≡ true },
    ghost woven: { (n : ℕ) → phase ≡ at.Sends n source.Woven → is_frame mender.weaver.made.group ≡ true },
    ghost small: { tally.behind ≤ MOST_FRAMES },
    ghost looks: { phase ≡ at.Looks → is_idle sender × (has_finished sender ≡ false) },
    ghost busy: { (n : ℕ) (from : Source) → phase ≡ at.Sends n from → is_idle sender → ⊥ },
    ghost rests: { phase ≡ at.Rests → is_idle sender × (has_finished sender ≡ true) },
}

impl<'p> Machine for MendMachine<'p> {
    ghost use Rattle.std.specs.Prelude.{length};
    ghost use Rattle.mend_run.specs.AsMachine.{Becomes, step_of, left_of, reach_of};

    ghost Becomes = { Becomes };

    ghost inputs = { λ m. length m.feeds.items };

    ghost next = { step_of };

    ghost left = { left_of };

    ghost reach = { reach_of };

    fn step(&self) -> Step {
        match self.phase {
            Phase::Looks => next_step(&self.feeds),
            Phase::Sends { .. } | Phase::Rests => Step::Give,
            Phase::Done => Step::End,
        }
    }

    fn feed(&mut self, input: usize, bytes: &[u8]) -> usize {
        events_law();
        feed_one(&mut self.feeds, input, bytes)
    }

    fn end_input(&mut self, input: usize, bytes: &[u8]) {
        events_law();
        end_one(&mut self.feeds, input, bytes);
    }

    fn give(&mut self, out: &mut [u8]) -> usize {
        events_law();
        match self.phase {
            Phase::Looks => {
                self.go_on();
                0
            }
            Phase::Sends { number, from } => self.give_units(number, from, out),
            Phase::Rests | Phase::Done => self.give_rest(out.first_chunk_mut().unwrap()),
        }
    }

    // Which feeds had the frames whole, and which frames are not sent.
    fn note<D: Desk>(&self, desk: &mut D) {
        self.counts.note(desk, self.feeds.len());
        desk.note(self.missing);
    }
}

impl<'p> Ending for MendMachine<'p> {
    ghost use Rattle.mend_run.specs.AsMachine.{ending_of};

    type Ran = MendRan;

    type Stop = MendStop;

    ghost ending = { ending_of };

    fn ending(&self) -> Result<MendRan, MendStop> {
        if self.tally.frames == 0 {
            return Err(MendStop::NoFrame);
        }
        Ok(self.tally.ran())
    }
}

impl<'p> MendMachine<'p> {
    ghost use Rattle.std.specs.Prelude.{◌≡◌, [], length, IfOk};
    ghost use Rattle.mend_run.specs.AsMachine.{Becomes};

    /// So many feeds to which nothing was fed, for a plan, and all memory. Its one refusal is want of memory.
    pub fn open(alloc: Global, plan: &'p Plan, count: usize) -> Result<MendMachine<'p>, OutOfMemory>
        ensures plan { IfOk result (λ m. m.plan.now ≡ plan.now) }
        ensures inputs { IfOk result (λ m. length m.feeds.items ≡ count) }
        ensures becomes { IfOk result (λ m. Becomes m [] m) }
    {
        plan.rules_law();
        Ok(MendMachine {
            plan,
            feeds: open_feeds(alloc, plan, count)?,
            mender: Mender::open(alloc, plan)?,
            sender: Sender::new(plan),
            phase: Phase::Looks,
            tally: Tally::NONE,
            counts: FeedCounts::none(),
            missing: Note::none(NOT_SENT),
        })
    }
}
