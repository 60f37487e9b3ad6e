// The steps of a comparison.
ghost use Rattle.std.specs.Prelude.{◌≡◌, ◌<◌, ◌≤◌, ◌++◌, ◌∷◌, List, [], false, Some, None, length, take, if◌then◌else◌};
ghost use Rattle.plp_config.specs.declared.config.Config.{Config};
ghost use Rattle.plp_config.specs.declared.moment.TheConstants.{MOST_FRAMES};
ghost use Rattle.file_run.specs.Events.{Event, Gave};
ghost use Rattle.file_run.specs.declared.machine.TheConstants.{PIECE};
ghost use Rattle.file_run.specs.declared.machine.Step.TheVariants.{Give};
ghost use Rattle.feed_merge.specs.FeedStandsFor.{waiting_of, has_ended, fed_of};
ghost use Rattle.compare_run.specs.declared.tally.TheConstants.{LONGEST_TEXT};
ghost use Rattle.feed_merge.specs.Reading.{is_idle as is_idle_by, least_of};
ghost use Rattle.compare_run.specs.Runs.{is_differing};
ghost use Rattle.compare_run.specs.TallyStandsFor.{plps_in};
ghost use Rattle.compare_run.specs.Shown.{Shown, HasShown};
ghost use Rattle.compare_run.specs.Steps.{step_of, left_of};

use crate::answer::Answer;
use crate::answer_laws::answers_law;
use crate::machine::CompareMachine;
use crate::taking::{answer_at, is_at, note};
use feed_merge::{least_number, skip_if};
use file_run::{Line, events_law};
use modulator::due_records_law;

/// Copies a line to the front of these bytes: how many it has.
pub fn copy_line(line: &Line, out: &mut [u8]) -> usize
    requires few { length line.now ≤ LONGEST_TEXT }
    requires room { PIECE ≤ length out.old }
    ensures bytes { take result out.new ≡ line.now }
    ensures count { result ≤ length out.old }
{
    let count = line.len();
    out[..count].copy_from_slice(line.as_bytes());
    count
}

// The place of the PLP that is told first of a frame: behind all, if it does not differ.
fn first_told(answer: Answer, plps: usize) -> usize
    ensures { result ≡ (if is_differing answer then 0 else plps) }
{
    if answer.is_differing() {
        return 0;
    }
    plps
}

impl<'p> CompareMachine<'p> {
    // Leaves the records of the least number behind, and says what is known by its frame, but for its PLPs.
    fn compare(&mut self, number: u64) -> Line
        requires came { ∥ HasShown self.old ∥₁ }
        requires told { plps_in self.old.carried ≤ self.old.plp }
        requires going { self.old.done ≡ false }
        requires busy { (is_idle_by (waiting_of self.old.a) (has_ended self.old.a) ≡ false)
            × (is_idle_by (waiting_of self.old.b) (has_ended self.old.b) ≡ false) }
        requires least { least_of (waiting_of self.old.a) (waiting_of self.old.b) ≡ Some number }
        requires early { number < MOST_FRAMES }
        ensures shown { (c : Config) (events : List Event) → Shown c events self.old
            → Shown c (events ++ Gave result ∷ []) self.new }
        ensures left { left_of self.new < left_of self.old }
        ensures fed { (fed_of self.new.a ≡ fed_of self.old.a) × (fed_of self.new.b ≡ fed_of self.old.b) }
        ensures len { length result ≤ LONGEST_TEXT }
    {
        events_law();
        due_records_law();
        answers_law();
        note(
            &mut self.carried,
            self.plan,
            self.next,
            number,
            &self.a,
            &self.b,
        );
        let answer = answer_at(&self.carried, self.plan, number, &self.a, &self.b);
        let takes_first = is_at(number, self.a.waiting());
        let takes_second = is_at(number, self.b.waiting());
        skip_if(&mut self.a, takes_first);
        skip_if(&mut self.b, takes_second);
        self.next = number + 1;
        self.last = number;
        self.plp = first_told(answer, self.carried.plps());
        self.tally.add(number, answer)
    }

    // Tells the next PLP of the frame that was compared last: its line, if it differs, or nothing.
    fn tell(&mut self) -> Line
        requires came { ∥ HasShown self.old ∥₁ }
        requires some { self.old.plp < plps_in self.old.carried }
        ensures shown { (c : Config) (events : List Event) → Shown c events self.old
            → Shown c (events ++ Gave result ∷ []) self.new }
        ensures left { left_of self.new < left_of self.old }
        ensures fed { (fed_of self.new.a ≡ fed_of self.old.a) × (fed_of self.new.b ≡ fed_of self.old.b) }
        ensures len { length result ≤ LONGEST_TEXT }
    {
        events_law();
        let plp = self.plp;
        self.plp = plp + 1;
        self.carried.plp_line(self.plan, self.last, plp)
    }

    // Both have ended: says what is left.
    fn finish(&mut self) -> Line
        requires told { plps_in self.old.carried ≤ self.old.plp }
        requires going { self.old.done ≡ false }
        requires busy { (is_idle_by (waiting_of self.old.a) (has_ended self.old.a) ≡ false)
            × (is_idle_by (waiting_of self.old.b) (has_ended self.old.b) ≡ false) }
        requires none { least_of (waiting_of self.old.a) (waiting_of self.old.b) ≡ None }
        ensures shown { (c : Config) (events : List Event) → Shown c events self.old
            → Shown c (events ++ Gave result ∷ []) self.new }
        ensures left { left_of self.new < left_of self.old }
        ensures fed { (fed_of self.new.a ≡ fed_of self.old.a) × (fed_of self.new.b ≡ fed_of self.old.b) }
        ensures len { length result ≤ LONGEST_TEXT }
    {
        events_law();
        self.done = true;
        self.tally.finish()
    }

    /// Goes on with the PLPs of the frame that was compared last, and then behind the records that wait.
    pub fn go_on(&mut self) -> Line
        requires came { ∥ HasShown self.old ∥₁ }
        requires gives { step_of self.old ≡ Give }
        ensures shown { (c : Config) (events : List Event) → Shown c events self.old
            → Shown c (events ++ Gave result ∷ []) self.new }
        ensures left { left_of self.new < left_of self.old }
        ensures fed { (fed_of self.new.a ≡ fed_of self.old.a) × (fed_of self.new.b ≡ fed_of self.old.b) }
        ensures len { length result ≤ LONGEST_TEXT }
    {
        if self.plp < self.carried.plps() {
            return self.tell();
        }
        match least_number(&self.a, &self.b) {
            Some(number) => self.compare(number),
            None => self.finish(),
        }
    }
}
