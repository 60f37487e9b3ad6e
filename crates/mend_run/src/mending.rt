// The steps of a run.
ghost use Rattle.std.specs.Prelude.{◌≡◌, ◌<◌};
ghost use Rattle.mended_frames.specs.StandsFor.{is_woven_by};

use crate::feed_counts::count_frame;
use crate::machine::MendMachine;
use crate::phase::Phase;
use crate::row::pass_next;
use file_run::events_law;
use mended_frames::{Source, is_silent, least_number};
use ts_packet::SIZE;

// Whether a frame was woven, by who lends it.
fn is_woven(from: Source) -> bool
    ensures { result ≡ is_woven_by from }
{
    match from {
        Source::Feed(_) => false,
        Source::Woven => true,
    }
}

impl<'p> MendMachine<'p> {
    ghost use Rattle.std.specs.Prelude.{◌≡◌, ◌<◌, ◌≤◌, ◌+◌, ◌++◌, ◌∷◌, ℕ, List, [], Some, true, false, length, take};
    ghost use Rattle.plp_config.specs.declared.config.Config.{Config};
    ghost use Rattle.plp_config.specs.declared.moment.TheConstants.{MOST_FRAMES};
    ghost use Rattle.ts_packet.specs.declared.sizes.TheConstants.{SIZE};
    ghost use Rattle.feed_events.specs.declared.course.Head.TheVariants as head;
    ghost use Rattle.mended_frames.specs.Heads.{least_head, head_at};
    ghost use Rattle.file_run.specs.Events.{Event, Gave};
    ghost use Rattle.file_run.specs.declared.machine.TheConstants.{PIECE};
    ghost use Rattle.file_run.specs.declared.machine.Step.TheVariants.{Give};
    ghost use Rattle.frame_groups.specs.Groups.{Group};
    ghost use Rattle.frame_groups.specs.Modulated.{Numbered};
    ghost use Rattle.open_group.specs.Holds.{Holds};
    ghost use Rattle.open_group.specs.declared.group.PooledGroup.{PooledGroup};
    ghost use Rattle.mended_frames.specs.Mended.{content_in};
    ghost use Rattle.mended_frames.specs.StandsFor.{CanLend, is_woven_by, lent_by, lent_content};
    ghost use Rattle.spaced_frames.specs.StandsFor.{SenderStandsFor, Content, sent_as, is_idle, has_finished};
    ghost use Rattle.spaced_frames.specs.StandsFor.{left_of as sender_left, most_left};
    ghost use Rattle.spaced_frames.specs.Spaced.{SentFrame};
    ghost use Rattle.mend_run.specs.AsMachine.{step_of, left_of, reach_of};
    ghost use Rattle.mend_run.specs.Row.{AllKnown, OnePasses, left_in};
    ghost use Rattle.mend_run.specs.Shown.{Shown, HasShown, Passes, ShownAt, with_frame};
    ghost use Rattle.mend_run.specs.declared.phase.Phase.TheVariants as phase;

    // Passes what is next in the feeds, if it is the packets of a frame, or perhaps a silence.
    fn pass(&mut self, number: Option<u64>, silent: bool)
        requires looks { self.old.phase ≡ phase.Looks }
        ensures shown { (c : Config) (k : ℕ) (done : List Event) → ShownAt c k done self.old (Passes number silent)
            → Shown c k done self.new }
        ensures left { OnePasses number silent self.old.feeds.items
            → left_in self.new.feeds.items < left_in self.old.feeds.items }
        ensures phase { self.new.phase ≡ phase.Looks }
        ensures reach { (input : ℕ) → reach_of self.old input ≤ reach_of self.new input }
    {
        pass_next(&mut self.feeds, number, silent);
    }

    // Begins the frame that one lends.
    fn begin(&mut self, number: u64, from: Source)
        requires can { CanLend from self.old.mender self.old.feeds.items }
        requires early { number < MOST_FRAMES }
        requires idle { is_idle self.old.sender }
        requires open { has_finished self.old.sender ≡ false }
        ensures sends { (x : Content) (frames : List SentFrame) (bytes : List ℕ)
            → SenderStandsFor self.old.plan.now self.old.sender x frames bytes
            → SenderStandsFor self.old.plan.now self.new.sender
            (lent_content from self.old.mender self.old.feeds.items)
            (frames ++ sent_as self.old.plan.now number (lent_content from self.old.mender self.old.feeds.items) ∷ [])
            bytes }
        ensures content { (lent : PooledGroup) (own : List Numbered) (g : Group)
            → lent_by from self.old.mender self.old.feeds.items ≡ Some lent → Holds lent own (Some g)
            → lent_content from self.old.mender self.old.feeds.items ≡ content_in self.old.plan.now g.packets }
        ensures left { sender_left self.old.plan.now self.new.sender
            (lent_content from self.old.mender self.old.feeds.items) < most_left }
        ensures phase { self.new.phase ≡ phase.Sends number from }
        ensures tally { self.new.tally ≡ with_frame self.old.tally number (is_woven_by from) }
        ensures same { (self.new.plan.now ≡ self.old.plan.now) × (self.new.feeds ≡ self.old.feeds)
            × (self.new.mender ≡ self.old.mender) }
    {
        let frame = self.mender.frame(&self.feeds, from);
        self.sender.begin(number, &frame);
        if self.tally.frames > 0 && self.tally.behind < number {
            self.missing.add_run(self.tally.behind, number - 1);
        }
        self.tally.add_frame(number, is_woven(from));
        self.phase = Phase::Sends { number, from };
    }

    // Makes a frame of what is next of it in the feeds, and begins it; or passes that, if none can be made.
    fn make(&mut self, number: u64)
        requires looks { self.old.phase ≡ phase.Looks }
        requires early { number < MOST_FRAMES }
        ensures shown { (c : Config) (k : ℕ) (done : List Event) → Shown c k done self.old
            → AllKnown self.old.feeds.items
            → least_head (length self.old.feeds.items) (head_at self.old.feeds.items) ≡ Some number
            → self.old.tally.behind ≤ number → Shown c k done self.new }
        ensures left { OnePasses (Some number) true self.old.feeds.items → left_of self.new < left_of self.old }
        ensures reach { (input : ℕ) → reach_of self.old input ≤ reach_of self.new input }
    {
        count_frame(&mut self.counts, &self.mender, &self.feeds, number);
        match self.mender.make(&self.feeds, number) {
            Some(from) => self.begin(number, from),
            None => self.pass(Some(number), true),
        }
    }

    // No more frames come.
    fn finish(&mut self)
        requires looks { self.old.phase ≡ phase.Looks }
        ensures shown { (c : Config) (k : ℕ) (done : List Event) → Shown c k done self.old
            → ((i : ℕ) → i < k → head_at self.old.feeds.items i ≡ head.Over) → Shown c k done self.new }
        ensures left { left_of self.new < left_of self.old }
        ensures reach { (input : ℕ) → reach_of self.old input ≤ reach_of self.new input }
    {
        self.sender.finish();
        self.phase = Phase::Rests;
    }

    /// Goes on behind what is next in the feeds: the least number is that of the next frame. Where no feed has packets
    /// next, silences are passed over; and if there is none, all feeds have come to their ends.
    pub(crate) fn go_on(&mut self)
        requires looks { self.old.phase ≡ phase.Looks }
        requires gives { step_of self.old ≡ Give }
        ensures shown { (c : Config) (k : ℕ) (done : List Event) → Shown c k done self.old → Shown c k done self.new }
        ensures left { left_of self.new < left_of self.old }
        ensures reach { (input : ℕ) → reach_of self.old input ≤ reach_of self.new input }
    {
        match least_number(&self.feeds) {
            Some(number) => {
                if number < self.tally.behind {
                    self.pass(Some(number), false);
                } else {
                    self.make(number);
                }
            }
            None => {
                if is_silent(&self.feeds) {
                    self.pass(None, true);
                } else {
                    self.finish();
                }
            }
        }
    }

    /// Gives units of the frame under way, to the front of these bytes, and goes on behind the last: how many bytes.
    pub(crate) fn give_units(&mut self, number: u64, from: Source, out: &mut [u8]) -> usize
        requires came { ∥ HasShown self.old ∥₁ }
        requires sends { self.old.phase ≡ phase.Sends number from }
        requires room { PIECE ≤ length out.old }
        ensures count { result ≤ length out.old }
        ensures shown { (c : Config) (k : ℕ) (done : List Event) → Shown c k done self.old
            → Shown c k (done ++ Gave (take result out.new) ∷ []) self.new }
        ensures left { left_of self.new < left_of self.old }
        ensures reach { (input : ℕ) → reach_of self.old input ≤ reach_of self.new input }
    {
        events_law();
        let frame = self.mender.frame(&self.feeds, from);
        let (len, busy) = self.sender.give(&frame, out);
        self.tally.add_units((len / SIZE) as u64);
        if !busy {
            self.phase = Phase::Looks;
            self.pass(Some(number), true);
        }
        len
    }

    /// Gives the next unit behind the end, or comes to its own end: how many bytes.
    pub(crate) fn give_rest(&mut self, unit: &mut [u8; SIZE]) -> usize
        requires rests { self.old.phase ≡ phase.Rests }
        ensures count { result ≤ length unit.new }
        ensures whole { length unit.new ≡ SIZE }
        ensures shown { (c : Config) (k : ℕ) (done : List Event) → Shown c k done self.old
            → Shown c k (done ++ Gave (take result unit.new) ∷ []) self.new }
        ensures left { left_of self.new < left_of self.old }
        ensures reach { (input : ℕ) → reach_of self.old input ≤ reach_of self.new input }
    {
        events_law();
        if self.sender.rest(unit) {
            self.tally.add_units(1);
            return SIZE;
        }
        self.phase = Phase::Done;
        0
    }
}
