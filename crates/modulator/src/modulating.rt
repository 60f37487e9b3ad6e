// Bytes in, records out.
use frame_groups::{Sequence, Waiting, due_law, front_law};
use open_group::PooledGroup;
use t2mi_stream::Unpiper;

/// Makes the records of frames from a stream of units: feed it, and give the record that waits, until none does.
#[derive(Drop)]
pub struct Modulating<'p> {
    pub unpiper: Unpiper,
    pub sequence: Sequence<PooledGroup<'p>>,
    // No more bytes come.
    pub finished: bool,
}

impl<'p> Modulating<'p> {
    ghost use Rattle.std.specs.Prelude.{◌≡◌, ◌<◌, ◌≤◌, ◌+◌, ◌⊎◌, ◌↔◌, ◌^◌, ◌++◌, ◌∷◌, ℕ, List, [], Some, IfSome};
    ghost use Rattle.std.specs.Prelude.{IfNone, length, take, true, false};
    ghost use Rattle.plp_config.specs.declared.moment.TheConstants.{MOST_FRAMES};
    ghost use Rattle.frame_groups.specs.Groups.{Group};
    ghost use Rattle.frame_groups.specs.Modulated.{FrameRecord};
    ghost use Rattle.frame_groups.specs.Due.{ComesNext};
    ghost use Rattle.frame_groups.specs.Records.{record_of};
    ghost use Rattle.frame_groups.specs.Waits.{waiting_of};
    ghost use Rattle.frame_groups.specs.declared.waiting.Waiting.{Waiting};
    ghost use Rattle.t2mi_stream.specs.UnpiperStandsFor.{fed_len};
    ghost use Rattle.modulator.specs.Modulating.{StandsAt, IsSettled, has_record, stream_of, records_ahead};
    ghost use Rattle.modulator.specs.StandsFor.{records_due};

    /// Takes bytes until a record waits or the piece ends, and answers how many.
    pub fn feed(&mut self, piece: &[u8]) -> usize
        requires early { self.old.sequence.progress.next ≤ MOST_FRAMES }
        requires open { self.old.finished ≡ false }
        requires room { fed_len self.old.unpiper + length piece.now < 2 ^ 60 }
        requires settled { IsSettled self.old }
        ensures stands { (bytes : List ℕ) (given : List FrameRecord) → StandsAt self.old bytes given
            → StandsAt self.new (bytes ++ take result piece.now) given }
        // It does not go past the byte with which a record waits.
        ensures first { (k : ℕ) → k < result → (bytes : List ℕ) (given : List FrameRecord)
            → StandsAt self.old bytes given
            → records_due self.old.sequence.group.network false (bytes ++ take k piece.now) ≡ given }
        ensures inside { result ≤ length piece.now }
        ensures none { (result ≡ 0) ↔ ((has_record self.old ≡ true) ⊎ (length piece.now ≡ 0)) }
        // It stops before the piece ends only if a record waits.
        ensures stops { result < length piece.now → has_record self.new ≡ true }
        ensures next { (self.new.sequence.progress.next ≡ self.old.sequence.progress.next)
            ⊎ (self.new.sequence.progress.next < MOST_FRAMES) }
        // The packets of the record that waits are there.
        ensures intact { has_record self.old ≡ false → has_record self.new ≡ true
            → self.new.sequence.group.intact ≡ true }
        ensures settled { IsSettled self.new }
        ensures stream { stream_of self.new ≡ record (stream_of self.old) { fed = fed_len self.old.unpiper + result } }
    {
        let mut count = 0;
        while count < piece.len() && self.sequence.progress.waiting().is_none() {
            count += self.feed_some(&piece[count..]);
        }
        count
    }

    /// The record that waits: the first of those that are due that was not given.
    pub fn waiting(&self) -> Option<Waiting>
        requires settled { IsSettled self.now }
        ensures is { result ≡ waiting_of self.now.sequence.progress }
        ensures some { IfSome result (λ w. (bytes : List ℕ) (given : List FrameRecord) (group : Group)
            → (h : StandsAt self.now bytes given) → h.keeps.group ≡ Some group
            → ComesNext (records_due self.now.sequence.group.network self.now.finished bytes) given
            (record_of group w)) }
        ensures none { IfNone result ((bytes : List ℕ) (given : List FrameRecord) → StandsAt self.now bytes given
            → records_due self.now.sequence.group.network self.now.finished bytes ≡ given) }
    {
        due_law();
        front_law();
        let _ready = self.unpiper.is_ready();
        self.sequence.progress.waiting()
    }

    /// Whether a group that is closed was the join: then records are due.
    pub fn joined(&self) -> bool
        requires settled { IsSettled self.now }
        ensures yes { result ≡ true → (bytes : List ℕ) (given : List FrameRecord) → StandsAt self.now bytes given
            → 0 < length (records_due self.now.sequence.group.network self.now.finished bytes) }
        ensures no { result ≡ false → (bytes : List ℕ) (given : List FrameRecord) → StandsAt self.now bytes given
            → records_due self.now.sequence.group.network self.now.finished bytes ≡ [] }
    {
        due_law();
        front_law();
        let _ready = self.unpiper.is_ready();
        self.sequence.progress.number.is_some()
    }

    /// The record that waits was given. The next one may wait at once.
    pub fn gave(&mut self)
        requires waits { has_record self.old ≡ true }
        requires settled { IsSettled self.old }
        ensures stands { (bytes : List ℕ) (given : List FrameRecord) (w : Waiting) (group : Group)
            → waiting_of self.old.sequence.progress ≡ Some w
            → (h : StandsAt self.old bytes given) → h.keeps.group ≡ Some group
            → StandsAt self.new bytes (given ++ record_of group w ∷ []) }
        ensures next { (self.new.sequence.progress.next ≡ self.old.sequence.progress.next + 1)
            ⊎ (self.new.sequence.progress.next < MOST_FRAMES) }
        ensures left { records_ahead self.new < records_ahead self.old }
        ensures intact { has_record self.new ≡ true → self.new.sequence.group.intact ≡ true }
        ensures settled { IsSettled self.new }
        ensures stream { stream_of self.new ≡ stream_of self.old }
    {
        due_law();
        self.sequence.gave();
        self.settle();
        if self.finished {
            self.end();
        }
    }

    /// No more bytes come: the last group is closed.
    pub fn finish(&mut self)
        requires open { self.old.finished ≡ false }
        requires settled { IsSettled self.old }
        ensures stands { (bytes : List ℕ) (given : List FrameRecord) → StandsAt self.old bytes given
            → StandsAt self.new bytes given }
        ensures still { has_record self.old ≡ true → self.new ≡ record (self.old) { finished = true } }
        ensures next { (self.new.sequence.progress.next ≡ self.old.sequence.progress.next)
            ⊎ (self.new.sequence.progress.next < MOST_FRAMES) }
        ensures intact { has_record self.old ≡ false → has_record self.new ≡ true
            → self.new.sequence.group.intact ≡ true }
        ensures settled { IsSettled self.new }
        ensures stream { stream_of self.new ≡ record (stream_of self.old) { finished = true } }
    {
        self.finished = true;
        self.end();
    }
}
