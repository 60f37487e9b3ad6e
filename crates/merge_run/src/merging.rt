// The steps of a merger.
ghost use Rattle.std.specs.Prelude.{◌≡◌, ◌<◌, ◌≤◌, ◌++◌, ◌∷◌, List, [], false, Some, None, length, take};
ghost use Rattle.plp_config.specs.declared.config.Config.{Config};
ghost use Rattle.plp_config.specs.declared.moment.TheConstants.{MOST_FRAMES};
ghost use Rattle.ts_packet.specs.declared.sizes.TheConstants.{SIZE};
ghost use Rattle.file_run.specs.Events.{Event, Gave};
ghost use Rattle.file_run.specs.declared.machine.TheConstants.{PIECE};
ghost use Rattle.file_run.specs.declared.machine.Step.TheVariants.{Give};
ghost use Rattle.feed_merge.specs.Reading.{is_idle, least_of};
ghost use Rattle.feed_merge.specs.FeedStandsFor.{waiting_of, has_ended, fed_of};
ghost use Rattle.merge_run.specs.Shown.{Shown, HasShown};
ghost use Rattle.merge_run.specs.Steps.{step_of, left_of};
ghost use Rattle.merge_run.specs.declared.phase.Phase.TheVariants as phase;

use crate::machine::MergeMachine;
use crate::phase::Phase;
use crate::sending::{begin_frame, give_frame};
use crate::taking::{is_picked, is_whole_in, pick_next, skip_others, skip_source, source_of};
use feed_merge::{grow_law, least_number};
use file_run::events_law;
use modulator::due_records_law;
use plp_config::block_law;
use stream_laws::formed_law;
use ts_packet::SIZE;

impl<'p> MergeMachine<'p> {
    // Leaves the records of the least number behind, but for the one that is picked: its frame is begun.
    fn begin(&mut self, number: u64)
        requires came { ∥ HasShown self.old ∥₁ }
        requires reads { self.old.phase ≡ phase.Reads }
        requires busy { (is_idle (waiting_of self.old.a) (has_ended self.old.a) ≡ false)
            × (is_idle (waiting_of self.old.b) (has_ended self.old.b) ≡ false) }
        requires least { least_of (waiting_of self.old.a) (waiting_of self.old.b) ≡ Some number }
        requires early { number < MOST_FRAMES }
        ensures shown { (c : Config) (events : List Event) → Shown c events self.old → Shown c events self.new }
        ensures left { left_of self.new < left_of self.old }
        ensures fed { (fed_of self.new.a ≡ fed_of self.old.a) × (fed_of self.new.b ≡ fed_of self.old.b) }
    {
        due_records_law();
        formed_law();
        grow_law();
        block_law();
        let pick = pick_next(&self.a, &self.b);
        skip_others(&mut self.a, &mut self.b, pick);
        self.next = number + 1;
        if !is_picked(pick.source) {
            return;
        }
        let source = pick.source.unwrap();
        begin_frame(
            &mut self.merger,
            source_of(&self.a, &self.b, source),
            number,
        );
        self.source = source;
        self.ran.add(source);
        self.phase = Phase::Gives;
    }

    // No more frames come.
    fn finish(&mut self)
        requires came { ∥ HasShown self.old ∥₁ }
        requires reads { self.old.phase ≡ phase.Reads }
        requires busy { (is_idle (waiting_of self.old.a) (has_ended self.old.a) ≡ false)
            × (is_idle (waiting_of self.old.b) (has_ended self.old.b) ≡ false) }
        requires none { least_of (waiting_of self.old.a) (waiting_of self.old.b) ≡ None }
        ensures shown { (c : Config) (events : List Event) → Shown c events self.old → Shown c events self.new }
        ensures left { left_of self.new < left_of self.old }
        ensures fed { (fed_of self.new.a ≡ fed_of self.old.a) × (fed_of self.new.b ≡ fed_of self.old.b) }
    {
        self.merger.finish();
        self.phase = Phase::Rests;
    }

    /// Goes on behind the records that wait.
    pub fn go_on(&mut self)
        requires came { ∥ HasShown self.old ∥₁ }
        requires reads { self.old.phase ≡ phase.Reads }
        requires gives { step_of self.old ≡ Give }
        ensures shown { (c : Config) (events : List Event) → Shown c events self.old → Shown c events self.new }
        ensures left { left_of self.new < left_of self.old }
        ensures fed { (fed_of self.new.a ≡ fed_of self.old.a) × (fed_of self.new.b ≡ fed_of self.old.b) }
    {
        match least_number(&self.a, &self.b) {
            Some(number) => {
                let has = [is_whole_in(&self.a, number), is_whole_in(&self.b, number)];
                self.counts.add(number, &has);
                self.begin(number);
            }
            None => self.finish(),
        }
    }

    /// Gives units of the frame under way, to the front of these bytes, and goes on behind the last: how many bytes.
    pub fn give_units(&mut self, out: &mut [u8]) -> usize
        requires came { ∥ HasShown self.old ∥₁ }
        requires gives { self.old.phase ≡ phase.Gives }
        requires room { PIECE ≤ length out.old }
        ensures count { result ≤ length out.old }
        ensures shown { (c : Config) (events : List Event) → Shown c events self.old
            → Shown c (events ++ Gave (take result out.new) ∷ []) self.new }
        ensures left { left_of self.new < left_of self.old }
        ensures fed { (fed_of self.new.a ≡ fed_of self.old.a) × (fed_of self.new.b ≡ fed_of self.old.b) }
    {
        events_law();
        due_records_law();
        let feed = source_of(&self.a, &self.b, self.source);
        let (len, full) = give_frame(&mut self.merger, feed, out);
        self.ran.add_units(len / SIZE);
        if !full {
            skip_source(&mut self.a, &mut self.b, self.source);
            self.phase = Phase::Reads;
        }
        len
    }

    /// Gives the next unit behind the end, or comes to its own end: how many bytes.
    pub fn give_rest(&mut self, unit: &mut [u8; SIZE]) -> usize
        requires came { ∥ HasShown self.old ∥₁ }
        requires rests { self.old.phase ≡ phase.Rests }
        ensures count { result ≤ length unit.new }
        ensures whole { length unit.new ≡ SIZE }
        ensures shown { (c : Config) (events : List Event) → Shown c events self.old
            → Shown c (events ++ Gave (take result unit.new) ∷ []) self.new }
        ensures left { left_of self.new < left_of self.old }
        ensures fed { (fed_of self.new.a ≡ fed_of self.old.a) × (fed_of self.new.b ≡ fed_of self.old.b) }
    {
        events_law();
        if self.merger.rest(unit) {
            self.ran.add_units(1);
            return SIZE;
        }
        self.phase = Phase::Done;
        0
    }
}
