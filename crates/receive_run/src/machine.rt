// The receiver as a machine between files.
ghost use Rattle.std.specs.Prelude.{◌≡◌, ◌<◌, ◌≤◌, ◌+◌, ℕ, length, Some};
ghost use Rattle.plp_config.specs.Laws.{FrameTicks, SoundTimes};
ghost use Rattle.plp_config.specs.declared.moment.TheConstants.{MOST_FRAMES};
ghost use Rattle.site_frame.specs.FeedStandsFor.{NeverLacksRoom};
ghost use Rattle.site_frame.specs.declared.coming.Coming.TheVariants.{Whole};
ghost use Rattle.plp_receiver.specs.JoinedBack.{MayJoin};
ghost use Rattle.plp_receiver.specs.JointStandsFor.{IsFresh, network_of, plp_of, joins_of, due_of};
ghost use Rattle.receive_run.specs.Taking.{TellsDue};

use crate::record::{Look, give_packet, take_record};
use crate::stop::{ReceiveRan, ReceiveStop};
use bit_slice::OutOfMemory;
use common_plp::join_law;
use file_run::{Ending, Machine, Step, events_law};
use plp_config::{Plan, length_law};
use plp_receiver::{JoinedReceiver, joined_law};
use site_frame::{Coming, RecordFeed, RecordWhy, stands_law};
use std::alloc::Global;
use ts_packet::SIZE;

/// A receiver that is fed with the bytes of records and gives the packets of a PLP, if so wanted with those that its
/// group has in common.
#[derive(Drop)]
pub struct ReceiverMachine<'p> {
    plan: &'p Plan,
    plp: usize,
    receiver: JoinedReceiver<'p>,
    // The records that were taken, and what came behind them.
    feed: RecordFeed,
    // The frame of the first of them.
    first: Option<u64>,
    // Why the record that has come whole is not that of the next frame.
    misplaced: Option<RecordWhy>,
    // How many packets were given.
    slots: u64,
    ghost network: { network_of receiver ≡ plan.now },
    ghost place: { plp_of receiver ≡ plp },
    ghost inside: { plp < length plan.now.plps },
    ghost room: { NeverLacksRoom feed },
}

// The slots of a PLP last a tick or more, and so do frames. It does nothing.
fn times_law()
    ensures frame { FrameTicks }
    ensures slot { SoundTimes }
{
    length_law();
}

// Nothing is due of a receiver to which nothing came. It does nothing.
fn fresh_law(receiver: &JoinedReceiver<'_>)
    requires { IsFresh receiver.now }
    ensures { due_of receiver.now ≡ 0 }
{
    receiver.due();
}

// What is joined with its PLP is the common one of the group. It does nothing.
fn joins_law(receiver: &JoinedReceiver<'_>)
    ensures { MayJoin (network_of receiver.now) (plp_of receiver.now) (joins_of receiver.now) }
{
    receiver.due();
}

// What is due are the packets of a list that its records give back. It does nothing.
fn due_law(receiver: &JoinedReceiver<'_>)
    ensures { TellsDue receiver.now }
{
    receiver.due();
}

impl<'p> Ending for ReceiverMachine<'p> {
    ghost use Rattle.site_frame.specs.FeedStandsFor.{coming_of, count_of};
    ghost use Rattle.receive_run.specs.AsMachine.{ending_of, ran_by};
    ghost use Rattle.receive_run.specs.NextStep.{refusal_of};

    type Ran = ReceiveRan;

    type Stop = ReceiveStop;

    ghost ending = { λ m. ending_of (refusal_of (coming_of m.feed) m.misplaced) (count_of m.feed)
        (ran_by (network_of m.receiver) (plp_of m.receiver) m.first m.slots) };

    fn ending(&self) -> Result<ReceiveRan, ReceiveStop> {
        match self.refusal() {
            Some(why) => Err(ReceiveStop::RecordRefused {
                number: self.feed.count(),
                why,
            }),
            None => Ok(ReceiveRan {
                first: self.first_slot(),
                slots: self.slots,
            }),
        }
    }
}

impl<'p> ReceiverMachine<'p> {
    ghost use Rattle.std.specs.Prelude.{[], IfOk};
    ghost use Rattle.site_frame.specs.FeedStandsFor.{coming_of, count_of, came_of};
    ghost use Rattle.receive_run.specs.AsMachine.{Becomes, IsReady, IsLookedAt, slot_by};
    ghost use Rattle.receive_run.specs.NextStep.{refusal_of};
    ghost use Rattle.receive_run.specs.Taking.{expected_by};

    /// A receiver of the PLP at a place to which nothing was fed, and all its memory; with it the PLP that is joined,
    /// if one is.
    pub fn open(
        alloc: Global,
        plan: &'p Plan,
        plp: usize,
        joins: Option<usize>,
    ) -> Result<ReceiverMachine<'p>, OutOfMemory>
        requires inside { plp < length plan.now.plps }
        requires may { MayJoin plan.now plp joins }
        ensures network { IfOk result (λ m. network_of m.receiver ≡ plan.now) }
        ensures plp { IfOk result (λ m. plp_of m.receiver ≡ plp) }
        ensures joins { IfOk result (λ m. joins_of m.receiver ≡ joins) }
        ensures becomes { IfOk result (λ m. Becomes m [] m) }
    {
        let feed = RecordFeed::open(alloc)?;
        let receiver = JoinedReceiver::open(alloc, plan, plp, joins)?;
        fresh_law(&receiver);
        Ok(ReceiverMachine {
            plan,
            plp,
            receiver,
            feed,
            first: None,
            misplaced: None,
            slots: 0,
        })
    }

    // The frame that is expected: any if no record came.
    fn expected(&self) -> Option<u64>
        requires { (n : ℕ) → self.now.first ≡ Some n → n + count_of self.now.feed ≤ MOST_FRAMES }
        ensures { result ≡ expected_by self.now.first (count_of self.now.feed) }
    {
        match self.first {
            Some(first) => Some(first + self.feed.count()),
            None => None,
        }
    }

    // Looks at the record that has come whole.
    fn see(&mut self)
        requires whole { coming_of self.old.feed ≡ Whole }
        requires ready { IsReady self.old.receiver self.old.first (count_of self.old.feed) }
        ensures sees { IsLookedAt self.old self.new }
        ensures came { came_of self.new.feed ≡ came_of self.old.feed }
    {
        let expected = self.expected();
        match take_record(self.plan, expected, &self.feed, &mut self.receiver) {
            Look::Taken(frame) => {
                due_law(&self.receiver);
                self.first = Some(self.first.unwrap_or(frame));
                self.feed.accept();
            }
            Look::NoRecord(why) => self.feed.refuse(why),
            Look::Misplaced(why) => self.misplaced = Some(why),
        }
    }

    // Why the record of the next frame does not come, if it does not.
    fn refusal(&self) -> Option<RecordWhy>
        ensures { result ≡ refusal_of (coming_of self.now.feed) self.now.misplaced }
    {
        match self.feed.coming() {
            Coming::Refused(why) => Some(why),
            _ => self.misplaced,
        }
    }

    // The slot at which the output begins, 0 if no record came.
    fn first_slot(&self) -> u64
        requires { (n : ℕ) → self.now.first ≡ Some n → n < MOST_FRAMES }
        ensures { result ≡ slot_by (network_of self.now.receiver) (plp_of self.now.receiver) self.now.first }
    {
        match self.first {
            Some(first) => {
                let before = first.saturating_sub(u64::from(self.plan.spread(self.plp)));
                self.plan
                    .slots_by(self.plp, before * u64::from(self.plan.config().ticks))
            }
            None => 0,
        }
    }
}

impl<'p> Machine for ReceiverMachine<'p> {
    ghost use Rattle.std.specs.Prelude.{◌+◌, []};
    ghost use Rattle.plp_receiver.specs.JointStandsFor.{due_of};
    ghost use Rattle.receive_run.specs.AsMachine.{Becomes, next_of, reach_of};

    ghost Becomes = { Becomes };

    ghost inputs = { λ m. 1 };

    ghost next = { next_of };

    ghost left = { λ m. due_of m.receiver };

    ghost reach = { reach_of };

    fn step(&self) -> Step {
        stands_law();
        if self.receiver.due() > 0 {
            return Step::Give;
        }
        let lacks = self.feed.lacks();
        if self.misplaced.is_some() || lacks == 0 {
            return Step::End;
        }
        Step::Read {
            input: 0,
            least: 1,
            most: lacks as u64,
        }
    }

    fn feed(&mut self, _input: usize, bytes: &[u8]) -> usize {
        events_law();
        joined_law();
        joins_law(&self.receiver);
        self.plan.rules_law();
        let count = self.feed.feed(bytes);
        if self.feed.is_whole() {
            self.see();
        }
        count
    }

    fn end_input(&mut self, _input: usize, _bytes: &[u8]) {
        events_law();
        self.feed.finish();
    }

    fn give(&mut self, out: &mut [u8]) -> usize {
        events_law();
        join_law();
        times_law();
        self.plan.rules_law();
        give_packet(&mut self.receiver, out.first_chunk_mut().unwrap());
        self.slots = self.slots.saturating_add(1);
        SIZE
    }
}
