// Frames out of feeds.
ghost use Rattle.std.specs.Prelude.{◌≡◌};
ghost use Rattle.open_group.specs.HoldsPast.{AreSized};
ghost use Rattle.frame_writer.specs.Signalling.{pre_part, conf_part};

use crate::groups::{is_whole, look_all, place_all, whole_feed};
use bit_slice::OutOfMemory;
use feed_events::EventFeed;
use frame_weave::{MarkedGroup, Weaver};
use frame_writer::{PoolFrame, Signalling};
use open_group::{HeldPast, PooledGroup};
use plp_config::Plan;
use std::alloc::Global;

/// Who lends a frame.
#[derive(Clone, Copy, Debug, PartialEq, Eq)]
pub enum Source {
    /// The feed at a place, which has it whole.
    Feed(usize),
    /// The mender, which wove it of all that the feeds have of it.
    Woven,
}

/// Makes frames of what several feeds have of them, one behind another: what weaves a frame, and what is held of the
/// frames that were made. All memory is taken in `open`.
#[derive(Drop)]
pub struct Mender<'p> {
    plan: &'p Plan,
    signalling: Signalling,
    weaver: Weaver<'p>,
    past: HeldPast,
    ghost pre: { signalling.pre ≡ pre_part plan.now },
    ghost conf: { signalling.conf ≡ conf_part plan.now },
    ghost same: { weaver.plan.now ≡ plan.now },
    ghost sized: { AreSized plan.now past },
}

impl<'p> Mender<'p> {
    ghost use Rattle.std.specs.Prelude.{◌≡◌, ◌<◌, ◌^◌, ◌&&◌, ◌∷◌, List, [], Some, None, true, is_some};
    ghost use Rattle.std.specs.Prelude.{IfOk, IfSome, IfNone};
    ghost use Rattle.frame_groups.specs.Groups.{Group};
    ghost use Rattle.frame_groups.specs.Modulated.{Numbered};
    ghost use Rattle.frame_groups.specs.Sequenced.{IsAbove};
    ghost use Rattle.feed_events.specs.StandsFor.{head_of, group_of};
    ghost use Rattle.frame_weave.specs.Holds.{HoldsMarked};
    ghost use Rattle.frame_weave.specs.Weaves.{IsOwn};
    ghost use Rattle.frame_weave.specs.Woven.{woven};
    ghost use Rattle.open_group.specs.FrameBytes.{is_frame};
    ghost use Rattle.open_group.specs.Holds.{Holds};
    ghost use Rattle.open_group.specs.HoldsPast.{HoldsPast};
    ghost use Rattle.open_group.specs.declared.group.PooledGroup.{PooledGroup};
    ghost use Rattle.frame_writer.specs.Left.{CanBeSent};
    ghost use Rattle.spaced_frames.specs.StandsFor.{content_of};
    ghost use Rattle.mended_frames.specs.Mended.{content_in, made_of, woven_of, passes};
    ghost use Rattle.mended_frames.specs.StandsFor.{AreOf, HaveGroups, MenderStandsFor, Makes, CanLend, IsNextIn};
    ghost use Rattle.mended_frames.specs.StandsFor.{is_at, lent_by, lent_content, picked_as, pooled_of};

    /// Takes the memory for a plan. No frame was made.
    pub fn open(alloc: Global, plan: &'p Plan) -> Result<Mender<'p>, OutOfMemory>
        ensures stands { IfOk result (λ mender. MenderStandsFor mender []) }
        ensures plan { IfOk result (λ mender. mender.plan.now ≡ plan.now) }
    {
        Ok(Mender {
            plan,
            signalling: Signalling::open(alloc, plan)?,
            weaver: Weaver::open(alloc, plan)?,
            past: HeldPast::open(alloc, plan)?,
        })
    }

    // Weaves a frame of what the feeds have of it, if that makes one.
    fn weave(&mut self, feeds: &[EventFeed<MarkedGroup<'p>>], number: u64) -> bool
        requires small { number < 2 ^ 32 }
        requires of { AreOf self.old.plan.now feeds.now }
        ensures told { (gs : List Group) → IsOwn self.old.weaver → HaveGroups number feeds.now gs
            → result ≡ is_some (woven self.old.plan.now number gs) }
        ensures group { (gs : List Group) (g : Group) → IsOwn self.old.weaver → HaveGroups number feeds.now gs
            → woven self.old.plan.now number gs ≡ Some g → Holds self.new.weaver.made.group [] (Some g) }
        ensures own { IsOwn self.old.weaver → IsOwn self.new.weaver }
        ensures same { (self.new.plan.now ≡ self.old.plan.now) × (self.new.past ≡ self.old.past) }
    {
        self.weaver.begin(number);
        look_all(&mut self.weaver, feeds, number);
        place_all(&mut self.weaver, feeds, number);
        self.weaver.finish()
    }

    // Whether the group that was woven is the frame, behind those that were made.
    fn is_frame(&self, number: u64) -> bool
        requires small { number < 2 ^ 32 }
        ensures value { (past : List Numbered) (g : Group) → Holds self.now.weaver.made.group [] (Some g)
            → HoldsPast self.now.plan.now self.now.past past → IsAbove past number
            → result ≡ passes self.now.plan.now past number g }
        ensures frame { result ≡ true → is_frame self.now.weaver.made.group ≡ true }
    {
        self.weaver
            .group()
            .fault_behind(&self.past, number)
            .is_none()
    }

    // Weaves a frame that is one behind those that were made, if that makes one.
    fn weave_frame(&mut self, feeds: &[EventFeed<MarkedGroup<'p>>], number: u64) -> bool
        requires small { number < 2 ^ 32 }
        requires of { AreOf self.old.plan.now feeds.now }
        ensures told { (gs : List Group) (past : List Numbered) → MenderStandsFor self.old past → IsAbove past number
            → HaveGroups number feeds.now gs
            → result ≡ is_some (woven_of self.old.plan.now past (picked_as number gs)) }
        ensures group { (gs : List Group) (past : List Numbered) (g : Group) → MenderStandsFor self.old past
            → IsAbove past number → HaveGroups number feeds.now gs
            → woven_of self.old.plan.now past (picked_as number gs) ≡ Some g
            → Holds self.new.weaver.made.group [] (Some g) }
        ensures frame { result ≡ true → is_frame self.new.weaver.made.group ≡ true }
        ensures stands { (past : List Numbered) → MenderStandsFor self.old past → MenderStandsFor self.new past }
        ensures plan { self.new.plan.now ≡ self.old.plan.now }
    {
        if !self.weave(feeds, number) {
            return false;
        }
        self.is_frame(number)
    }

    // The frame that a feed has was made.
    fn note_feed(&mut self, feed: &EventFeed<MarkedGroup<'p>>, number: u64)
        requires network { (pooled_of feed.now).network ≡ self.old.plan.now }
        ensures stands { (past own : List Numbered) (g : Group) → MenderStandsFor self.old past
            → Holds (pooled_of feed.now) own (Some g) → IsAbove past number
            → MenderStandsFor self.new (record { number = number; group = g } ∷ past) }
        ensures intact { (pooled_of feed.now).intact ≡ true }
        ensures plan { self.new.plan.now ≡ self.old.plan.now }
    {
        feed.group().group().note_in(&mut self.past, number);
    }

    // The frame that was woven was made.
    fn note_woven(&mut self, number: u64)
        ensures stands { (past : List Numbered) (g : Group) → MenderStandsFor self.old past
            → Holds self.old.weaver.made.group [] (Some g) → IsAbove past number
            → MenderStandsFor self.new (record { number = number; group = g } ∷ past) }
        ensures intact { self.new.weaver.made.group.intact ≡ true }
        ensures network { self.new.weaver.made.group.network ≡ self.new.plan.now }
        ensures same { (self.new.plan.now ≡ self.old.plan.now) × (self.new.weaver ≡ self.old.weaver) }
    {
        self.weaver.group().note_in(&mut self.past, number);
    }

    /// Whether packets of a frame, above those that were made, are next in a feed and are that frame by themselves. The
    /// first such feed lends the frame that [`Mender::make`] makes.
    pub fn is_whole(&self, feed: &EventFeed<MarkedGroup<'p>>, number: u64) -> bool
        requires small { number < 2 ^ 32 }
        requires network { (pooled_of feed.now).network ≡ self.now.plan.now }
        ensures value { (past own : List Numbered) (h : Group) → MenderStandsFor self.now past → IsAbove past number
            → HoldsMarked (group_of feed.now) own (Some h)
            → result ≡ (is_at number (head_of feed.now) && passes self.now.plan.now past number h) }
        ensures there { result ≡ true → is_at number (head_of feed.now) ≡ true }
    {
        is_whole(feed, &self.past, number)
    }

    /// Makes a frame, above those that were made, of what the feeds have of it: who lends it, if it is made.
    pub fn make(&mut self, feeds: &[EventFeed<MarkedGroup<'p>>], number: u64) -> Option<Source>
        requires small { number < 2 ^ 32 }
        requires of { AreOf self.old.plan.now feeds.now }
        ensures some { IfSome result (λ from. (gs : List Group) (past : List Numbered) → MenderStandsFor self.old past
            → IsAbove past number → HaveGroups number feeds.now gs
            → Makes self.new feeds.now past (picked_as number gs) from) }
        ensures lends { IfSome result (λ from. CanLend from self.new feeds.now) }
        ensures next { IfSome result (λ from. IsNextIn number from feeds.now) }
        ensures none { IfNone result ((gs : List Group) (past : List Numbered) → MenderStandsFor self.old past
            → IsAbove past number → HaveGroups number feeds.now gs
            → (made_of self.old.plan.now past (picked_as number gs) ≡ None) × MenderStandsFor self.new past) }
        ensures plan { self.new.plan.now ≡ self.old.plan.now }
    {
        if let Some(feed) = whole_feed(self.plan, feeds, &self.past, number) {
            self.note_feed(&feeds[feed], number);
            return Some(Source::Feed(feed));
        }
        if !self.weave_frame(feeds, number) {
            return None;
        }
        self.note_woven(number);
        Some(Source::Woven)
    }

    // The group of who lends a frame.
    fn lent<'g>(
        &'g self,
        feeds: &'g [EventFeed<MarkedGroup<'p>>],
        from: Source,
    ) -> &'g PooledGroup<'p>
        requires can { CanLend from self.now feeds.now }
        ensures is { lent_by from self.now feeds.now ≡ Some result.now }
        ensures intact { result.now.intact ≡ true }
        ensures network { result.now.network ≡ self.now.plan.now }
        ensures frame { is_frame result.now ≡ true }
    {
        match from {
            Source::Feed(feed) => feeds[feed].group().group(),
            Source::Woven => self.weaver.group(),
        }
    }

    /// The frame that one lends now: the one that was made last, until its feed goes on or [`Mender::make`] is called
    /// again.
    pub fn frame<'g>(
        &'g self,
        feeds: &'g [EventFeed<MarkedGroup<'p>>],
        from: Source,
    ) -> PoolFrame<'g>
        requires can { CanLend from self.now feeds.now }
        ensures content { (lent : PooledGroup) (own : List Numbered) (g : Group)
            → lent_by from self.now feeds.now ≡ Some lent → Holds lent own (Some g)
            → content_of result ≡ content_in self.now.plan.now g.packets }
        ensures held { content_of result ≡ lent_content from self.now feeds.now }
        ensures can { CanBeSent self.now.plan.now result }
    {
        let group = self.lent(feeds, from);
        PoolFrame {
            pre: self.signalling.pre.as_slice(),
            conf: self.signalling.conf.as_slice(),
            dynamic: group.dynamic(),
            blocks: group.blocks(),
        }
    }
}
