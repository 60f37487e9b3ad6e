// The record that waits is begun.
ghost use Rattle.std.specs.Prelude.{◌≡◌, ◌<◌, ◌≤◌, ℕ, List, true, length, flat_map};
ghost use Rattle.frame_groups.specs.Modulated.{FrameRecord};
ghost use Rattle.open_group.specs.FrameBytes.{bytes_left, most_left};
ghost use Rattle.open_group.specs.Written.{spelled};
ghost use Rattle.modulator.specs.Gives.{Gives};
ghost use Rattle.modulator.specs.Modulating.{StandsAt, has_record, course_of};

use crate::modulating::Modulating;

impl<'p> Modulating<'p> {
    /// Begins the record that waits, if one does.
    pub fn begin_next(&mut self)
        requires intact { has_record self.old ≡ true → self.old.sequence.group.intact ≡ true }
        ensures gives { (bytes : List ℕ) (given : List FrameRecord) (taken : List ℕ) → StandsAt self.old bytes given
            → taken ≡ flat_map (spelled self.old.sequence.group.network) given → Gives self.new bytes taken }
        ensures some { has_record self.new ≡ true → 0 < length (bytes_left self.new.sequence.group) }
        ensures most { has_record self.new ≡ true
            → length (bytes_left self.new.sequence.group) ≤ most_left self.old.sequence.group.network }
        ensures course { course_of self.new ≡ course_of self.old }
    {
        let sequence = &mut self.sequence;
        match sequence.progress.waiting() {
            Some(waiting) => sequence.group.begin_record(waiting),
            None => {}
        }
    }
}
