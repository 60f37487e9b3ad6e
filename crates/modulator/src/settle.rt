// Packets from the unpiper into the sequence.
ghost use Rattle.std.specs.Prelude.{◌≡◌, ◌<◌, ◌≤◌, ◌⊎◌, ◌+◌, ◌++◌, ◌^◌, length, take, ℕ, List, true, false};
ghost use Rattle.plp_config.specs.declared.moment.TheConstants.{MOST_FRAMES};
ghost use Rattle.frame_groups.specs.Modulated.{FrameRecord};
ghost use Rattle.frame_groups.specs.Waits.{IsWithin};
ghost use Rattle.t2mi_stream.specs.UnpiperStandsFor.{is_ready, fed_len, steps_left};
ghost use Rattle.modulator.specs.Modulating.{StandsAt, IsNear, IsSettled, has_record, stream_of, records_ahead};
ghost use Rattle.modulator.specs.StandsFor.{records_due};

use crate::modulating::Modulating;
use frame_groups::{OpenGroup, due_law};
use t2mi_packet::read_known;
use t2mi_stream::{accepted_front_law, events_push_law};

impl<'p> Modulating<'p> {
    // Whether a packet waits, and no record.
    fn is_next(&self) -> bool
        ensures yes { result ≡ true → (is_ready self.now.unpiper ≡ true) × (has_record self.now ≡ false) }
        ensures no { result ≡ false → has_record self.now ≡ false → is_ready self.now.unpiper ≡ false }
    {
        match self.sequence.progress.waiting() {
            Some(_) => false,
            None => self.unpiper.is_ready(),
        }
    }

    // Works off the packet that waits, unless it closes a group whose record waits.
    fn step(&mut self) -> bool
        requires ready { is_ready self.old.unpiper ≡ true }
        requires idle { has_record self.old ≡ false }
        requires near { IsNear self.old }
        ensures stands { (bytes : List ℕ) (given : List FrameRecord) → StandsAt self.old bytes given
            → StandsAt self.new bytes given }
        ensures near { IsNear self.new }
        ensures next { (self.new.sequence.progress.next ≡ self.old.sequence.progress.next)
            ⊎ (self.new.sequence.progress.next < MOST_FRAMES) }
        ensures waits { result ≡ false → has_record self.new ≡ true }
        ensures intact { has_record self.new ≡ true → self.new.sequence.group.intact ≡ true }
        ensures less { result ≡ true → steps_left self.new.unpiper < steps_left self.old.unpiper }
        ensures left { records_ahead self.new ≤ records_ahead self.old }
        ensures stream { stream_of self.new ≡ stream_of self.old }
    {
        events_push_law();
        let packet = read_known(self.unpiper.bytes());
        if !self.sequence.work(&packet) {
            return false;
        }
        self.unpiper.release();
        true
    }

    /// Works off the packets that wait, until a record waits or no packet does.
    pub fn settle(&mut self)
        requires near { IsNear self.old }
        ensures stands { (bytes : List ℕ) (given : List FrameRecord) → StandsAt self.old bytes given
            → StandsAt self.new bytes given }
        ensures near { IsNear self.new }
        ensures next { (self.new.sequence.progress.next ≡ self.old.sequence.progress.next)
            ⊎ (self.new.sequence.progress.next < MOST_FRAMES) }
        ensures intact { (has_record self.old ≡ true → self.old.sequence.group.intact ≡ true)
            → has_record self.new ≡ true → self.new.sequence.group.intact ≡ true }
        ensures done { has_record self.new ≡ false → is_ready self.new.unpiper ≡ false }
        ensures left { records_ahead self.new ≤ records_ahead self.old }
        ensures stream { stream_of self.new ≡ stream_of self.old }
    {
        while self.is_next() {
            if !self.step() {
                return;
            }
        }
    }

    /// Feeds some bytes, if no record waits, and no packet.
    pub fn feed_some(&mut self, piece: &[u8]) -> usize
        requires near { IsWithin MOST_FRAMES self.old.sequence.progress }
        requires idle { is_ready self.old.unpiper ≡ false }
        requires open { self.old.finished ≡ false }
        requires some { 0 < length piece.now }
        requires room { fed_len self.old.unpiper + length piece.now < 2 ^ 60 }
        ensures stands { (bytes : List ℕ) (given : List FrameRecord) → StandsAt self.old bytes given
            → StandsAt self.new (bytes ++ take result piece.now) given }
        // It does not go past the byte with which a packet is accepted.
        ensures first { has_record self.old ≡ false → (k : ℕ) → k < result
            → (bytes : List ℕ) (given : List FrameRecord) → StandsAt self.old bytes given
            → records_due self.old.sequence.group.network false (bytes ++ take k piece.now) ≡ given }
        ensures inside { (0 < result) × (result ≤ length piece.now) }
        ensures near { IsNear self.new }
        ensures next { (self.new.sequence.progress.next ≡ self.old.sequence.progress.next)
            ⊎ (self.new.sequence.progress.next < MOST_FRAMES) }
        ensures intact { has_record self.old ≡ false → has_record self.new ≡ true
            → self.new.sequence.group.intact ≡ true }
        ensures done { has_record self.new ≡ false → is_ready self.new.unpiper ≡ false }
        ensures stream { stream_of self.new ≡ record (stream_of self.old) { fed = fed_len self.old.unpiper + result } }
    {
        accepted_front_law();
        events_push_law();
        due_law();
        let _ready = self.unpiper.is_ready();
        let count = self.unpiper.feed(piece);
        self.settle();
        count
    }

    /// No more bytes come: closes the last group, if no record waits, and no packet.
    pub fn end(&mut self)
        requires finished { self.old.finished ≡ true }
        requires done { has_record self.old ≡ false → is_ready self.old.unpiper ≡ false }
        requires near { IsNear self.old }
        ensures stands { (bytes : List ℕ) (given : List FrameRecord) → StandsAt self.old bytes given
            → StandsAt self.new bytes given }
        ensures still { has_record self.old ≡ true → self.new ≡ self.old }
        ensures settled { IsSettled self.new }
        ensures intact { (has_record self.old ≡ true → self.old.sequence.group.intact ≡ true)
            → has_record self.new ≡ true → self.new.sequence.group.intact ≡ true }
        ensures next { (self.new.sequence.progress.next ≡ self.old.sequence.progress.next)
            ⊎ (self.new.sequence.progress.next < MOST_FRAMES) }
        ensures left { records_ahead self.new ≤ records_ahead self.old }
        ensures stream { stream_of self.new ≡ stream_of self.old }
    {
        if self.sequence.progress.waiting().is_some() {
            return;
        }
        if self.sequence.progress.closing {
            return;
        }
        if self.sequence.group.key().is_none() {
            return;
        }
        self.sequence.close();
    }
}
