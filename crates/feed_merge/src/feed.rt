// A T2-MI stream in, frames out.
ghost use Rattle.std.specs.Prelude.{◌≡◌, ◌<◌, ◌≤◌, Some, true};
ghost use Rattle.frame_groups.specs.Waits.{waiting_of as next_of};
ghost use Rattle.plp_config.specs.declared.moment.TheConstants.{MOST_FRAMES};
ghost use Rattle.modulator.specs.Modulating.{IsSettled, has_record};
ghost use Rattle.frame_writer.specs.Signalling.{pre_part, conf_part};

use crate::moments::count;
use bit_slice::OutOfMemory;
use frame_groups::{Sequence, Waiting};
use frame_writer::{PoolFrame, Signalling};
use linked_pool::Pool;
use modulator::{Modulating, due_records_law};
use open_group::PooledGroup;
use plp_config::{MOST_FRAMES, Plan};
use ports::{Desk, Note, OTHER_MOMENT};
use std::alloc::Global;
use t2mi_stream::{Unpiper, accepted_front_law};

/// The frames of a T2-MI stream, however it is cut and damaged: feed it until a record waits, look at its frame, and
/// skip it. All memory is taken in `open`.
#[derive(Drop)]
pub struct FrameFeed<'p> {
    plan: &'p Plan,
    signalling: Signalling,
    inner: Modulating<'p>,
    // The record that waits.
    waiting: Option<Waiting>,
    // For people: no definition reads it.
    moments: Note,
    ghost network: { plan.now ≡ inner.sequence.group.network },
    ghost pre: { signalling.pre ≡ pre_part plan.now },
    ghost conf: { signalling.conf ≡ conf_part plan.now },
    ghost settled: { IsSettled inner },
    ghost waits: { waiting ≡ next_of inner.sequence.progress },
    // The packets of the frame that waits are there.
    ghost intact: { has_record inner ≡ true → inner.sequence.group.intact ≡ true },
    ghost early: { inner.sequence.progress.next ≤ MOST_FRAMES },
}

impl<'p> FrameFeed<'p> {
    ghost use Rattle.std.specs.Prelude.{◌≡◌, ◌<◌, ◌≤◌, ◌+◌, ◌^◌, ◌++◌, ◌∷◌, ℕ, Bool, List, [], IfOk, IfSome, IfNone};
    ghost use Rattle.std.specs.Prelude.{IsSome, Some, None, length, take, true, false};
    ghost use Rattle.plp_config.specs.declared.moment.TheConstants.{MOST_FRAMES};
    ghost use Rattle.frame_groups.specs.Groups.{Group};
    ghost use Rattle.frame_groups.specs.Modulated.{FrameRecord, Numbered};
    ghost use Rattle.frame_groups.specs.Modulated.Content.{Whole};
    ghost use Rattle.frame_groups.specs.declared.waiting.Waiting.{Waiting};
    ghost use Rattle.frame_groups.specs.Begun.{packets_at};
    ghost use Rattle.modulator.specs.StandsFor.{records_due};
    ghost use Rattle.open_group.specs.Shown.{Shows, AreBlocks};
    ghost use Rattle.feed_merge.specs.FeedStandsFor.{FrameFeedStandsFor, Skipped, config_of, waiting_of, is_whole};
    ghost use Rattle.feed_merge.specs.FeedStandsFor.{has_ended, fed_of, left_of};
    ghost use Rattle.feed_merge.specs.Frames.{IsFrameOf, dynamic_of, lists_of};
    ghost use Rattle.feed_merge.specs.Groups.{AreGroups, HasRoom, CarriesRoom};

    /// A feed of a network, to which no byte was fed.
    pub fn open(alloc: Global, plan: &'p Plan) -> Result<FrameFeed<'p>, OutOfMemory>
        ensures stands { IfOk result (λ f. FrameFeedStandsFor f [] false []) }
        ensures config { IfOk result (λ f. config_of f ≡ plan.now) }
    {
        due_records_law();
        let signalling = Signalling::open(alloc, plan)?;
        let unpiper = Unpiper::open(alloc, plan.config().pid)?;
        let sequence = Sequence::new(PooledGroup::open(alloc, plan)?);
        let inner = Modulating {
            unpiper,
            sequence,
            finished: false,
        };
        let waiting = inner.waiting();
        Ok(FrameFeed {
            plan,
            signalling,
            inner,
            waiting,
            moments: Note::none(OTHER_MOMENT),
        })
    }

    /// The record that waits: the number of its frame, and why it is muted if it is.
    pub fn waiting(&self) -> Option<Waiting>
        ensures { result ≡ waiting_of self.now }
    {
        self.waiting
    }

    /// Whether the stream has ended.
    pub fn is_ended(&self) -> bool
        ensures { result ≡ has_ended self.now }
    {
        self.inner.finished
    }

    /// Takes bytes of the stream until a record waits or the piece ends, a byte at least, and answers how many. No
    /// record waits, and with the piece fewer than 2^60 bytes were fed in all.
    pub fn feed(&mut self, piece: &[u8]) -> usize
        requires idle { waiting_of self.old ≡ None }
        requires open { has_ended self.old ≡ false }
        requires some { 0 < length piece.now }
        requires room { fed_of self.old + length piece.now < 2 ^ 60 }
        ensures stands { (bytes : List ℕ) (given : List FrameRecord) → FrameFeedStandsFor self.old bytes false given
            → FrameFeedStandsFor self.new (bytes ++ take result piece.now) false given }
        ensures count { (0 < result) × (result ≤ length piece.now) }
        // It stops before the piece ends only if a record waits.
        ensures stops { result < length piece.now → IsSome (waiting_of self.new) }
        ensures fed { fed_of self.new ≡ fed_of self.old + result }
        ensures ended { has_ended self.new ≡ false }
        ensures config { config_of self.new ≡ config_of self.old }
    {
        due_records_law();
        let count = self.inner.feed(piece);
        self.waiting = self.inner.waiting();
        count
    }

    /// No more bytes come. No record waits.
    pub fn finish(&mut self)
        requires idle { waiting_of self.old ≡ None }
        requires open { has_ended self.old ≡ false }
        ensures stands { (bytes : List ℕ) (given : List FrameRecord) → FrameFeedStandsFor self.old bytes false given
            → FrameFeedStandsFor self.new bytes true given }
        ensures fed { fed_of self.new ≡ fed_of self.old }
        ensures ended { has_ended self.new ≡ true }
        ensures config { config_of self.new ≡ config_of self.old }
    {
        due_records_law();
        self.inner.finish();
        self.waiting = self.inner.waiting();
    }

    /// The frame that waits, which is not muted.
    pub fn frame(&self) -> PoolFrame<'_>
        requires whole { is_whole (waiting_of self.now) ≡ true }
        ensures shows { (bytes : List ℕ) (ended : Bool) (given : List FrameRecord)
            → FrameFeedStandsFor self.now bytes ended given
            → (x : FrameRecord) (later : List FrameRecord) → records_due (config_of self.now) ended bytes ≡ given
            ++ x ∷ later
            → (g : Group) → x.content ≡ Whole g
            → Shows (config_of self.now) g.packets (dynamic_of self.now) (lists_of self.now) }
        // So it is by the group of its number, whatever follows; and the blocks that it carries have room.
        ensures came { (bytes : List ℕ) (ended : Bool) (given : List FrameRecord)
            → FrameFeedStandsFor self.now bytes ended given
            → (w : Waiting) → waiting_of self.now ≡ Some w → (gs : List Numbered)
            → AreGroups (config_of self.now) bytes ended gs
            → Shows (config_of self.now) (packets_at gs w.frame) (dynamic_of self.now) (lists_of self.now) }
        ensures room { (bytes : List ℕ) (ended : Bool) (given : List FrameRecord)
            → FrameFeedStandsFor self.now bytes ended given
            → (w : Waiting) → waiting_of self.now ≡ Some w → (gs : List Numbered)
            → AreGroups (config_of self.now) bytes ended gs
            → CarriesRoom (config_of self.now) gs w.frame }
        ensures is { IsFrameOf self.now result }
    {
        accepted_front_law();
        let _ready = self.inner.unpiper.is_ready();
        let _waiting = self.inner.waiting();
        let group = &self.inner.sequence.group;
        PoolFrame {
            pre: self.signalling.pre.as_slice(),
            conf: self.signalling.conf.as_slice(),
            dynamic: group.dynamic(),
            blocks: group.blocks(),
        }
    }

    /// The blocks that came of the frame that waits, muted or not, a list for each PLP: None if no packet of it came,
    /// or if they have no room.
    pub fn blocks(&self) -> Option<&Pool>
        requires waits { IsSome (waiting_of self.now) }
        // They are those of the whole stream, whatever follows.
        ensures some { IfSome result (λ pool. (bytes : List ℕ) (ended : Bool) (given : List FrameRecord)
            → FrameFeedStandsFor self.now bytes ended given
            → (w : Waiting) → waiting_of self.now ≡ Some w → (gs : List Numbered)
            → AreGroups (config_of self.now) bytes ended gs
            → AreBlocks (config_of self.now) (packets_at gs w.frame) pool.now.lists) }
        ensures none { IfNone result ((bytes : List ℕ) (ended : Bool) (given : List FrameRecord)
            → FrameFeedStandsFor self.now bytes ended given
            → (w : Waiting) → waiting_of self.now ≡ Some w → (gs : List Numbered)
            → AreGroups (config_of self.now) bytes ended gs
            → HasRoom (config_of self.now) gs w.frame → packets_at gs w.frame ≡ []) }
        ensures plps { IfSome result (λ pool. length pool.now.lists ≡ length (config_of self.now).plps) }
    {
        accepted_front_law();
        let _ready = self.inner.unpiper.is_ready();
        let Some(number) = self.inner.sequence.progress.number else {
            return None;
        };
        if number != self.inner.sequence.progress.next {
            return None;
        }
        let group = &self.inner.sequence.group;
        if !group.has_room() {
            return None;
        }
        Some(group.blocks())
    }

    /// Leaves the record that waits behind. Its frame is one below 2^31.
    pub fn skip(&mut self)
        requires waits { IsSome (waiting_of self.old) }
        requires early { (w : Waiting) → waiting_of self.old ≡ Some w → w.frame < MOST_FRAMES }
        ensures skips { (bytes : List ℕ) (ended : Bool) (given : List FrameRecord)
            → FrameFeedStandsFor self.old bytes ended given
            → Skipped self.old self.new bytes ended given }
        // So no more than so many records are left behind before bytes are fed.
        ensures left { left_of self.new < left_of self.old }
        ensures fed { fed_of self.new ≡ fed_of self.old }
        ensures ended { has_ended self.new ≡ has_ended self.old }
        ensures config { config_of self.new ≡ config_of self.old }
    {
        due_records_law();
        count(&mut self.moments, self.waiting);
        let _waiting = self.inner.waiting();
        self.inner.gave();
        self.waiting = self.inner.waiting();
    }

    /// Notes, of the input at a place, the frames that were left behind and whose timestamp is of another moment.
    pub fn note<D: Desk>(&self, desk: &mut D, input: usize)
        ensures { D.state desk.new ≡ D.state desk.old }
    {
        desk.note(self.moments.of(input));
    }
}
