// A T2-MI stream in, events out.
ghost use Rattle.std.specs.Prelude.{◌≡◌, true, false};
ghost use Rattle.t2mi_stream.specs.UnpiperStandsFor.{is_ready};
ghost use Rattle.feed_events.specs.declared.course.Head.TheVariants as head;

use crate::course::Head;
use crate::frames::Frames;
use crate::idle::is_idle;
use crate::settling::{go_on, rest};
use bit_slice::OutOfMemory;
use frame_groups::OpenGroup;
use std::alloc::Global;
use t2mi_stream::{Unpiper, accepted_front_law, events_push_law, few_packets_law, first_unit};
use ts_packet::SIZE;

/// The events of a feed of a T2-MI stream, however it is damaged: feed it until it is known what is next, and pass
/// that.
#[derive(Drop)]
pub struct EventFeed<G: OpenGroup + Drop> {
    pid: u16,
    unpiper: Unpiper,
    frames: Frames<G>,
    // An idle unit came that was not yet worked off.
    idle: bool,
    // No more bytes come.
    finished: bool,
    ghost network: { (G.rules frames.group).network.pid ≡ pid },
    ghost settled: { frames.course.head ≡ head.Unknown → (is_ready unpiper ≡ false) × (idle ≡ false)
        × (finished ≡ false) },
    ghost over: { frames.course.head ≡ head.Over → (is_ready unpiper ≡ false) × (idle ≡ false) × (finished ≡ true) },
}

impl<G: OpenGroup + Drop> EventFeed<G> {
    ghost use Rattle.std.specs.Prelude.{◌≡◌, ◌≢◌, ◌<◌, ◌≤◌, ◌+◌, ◌^◌, ◌++◌, ℕ, Bool, List, [], None, IfOk, length};
    ghost use Rattle.std.specs.Prelude.{take, true, false};
    ghost use Rattle.ts_packet.specs.declared.sizes.TheConstants.{SIZE};
    ghost use Rattle.feed_events.specs.Arrivals.{Arrival};
    ghost use Rattle.feed_events.specs.FeedEvents.{FeedEvent, feed_events};
    ghost use Rattle.feed_events.specs.StandsFor.{CanBecome, IsNext, EventFeedStandsFor, head_of, fed_of, left_of};
    ghost use Rattle.feed_events.specs.StandsFor.{group_of, has_ended, is_event, shown};
    ghost use Rattle.feed_events.specs.declared.course.Head.TheVariants as head;

    /// A feed, on the PID of its network, with a group to which nothing was added. No byte was fed.
    pub fn open(alloc: Global, pid: u16, group: G) -> Result<EventFeed<G>, OutOfMemory>
        requires none { G.holds group [] None }
        requires intact { G.is_intact group ≡ true }
        requires pid { (G.rules group).network.pid ≡ pid }
        ensures stands { IfOk result (λ f. EventFeedStandsFor G.OpenGroup f [] []) }
        ensures rules { IfOk result (λ f. G.rules (group_of f) ≡ G.rules group) }
        ensures unknown { IfOk result (λ f. head_of f ≡ head.Unknown) }
        ensures open { IfOk result (λ f. has_ended f ≡ false) }
    {
        few_packets_law();
        Ok(EventFeed {
            pid,
            unpiper: Unpiper::open(alloc, pid)?,
            frames: Frames::new(group),
            idle: false,
            finished: false,
        })
    }

    /// What is next, if it is known.
    pub fn head(&self) -> Head
        ensures head { result ≡ head_of self.now }
        // It is next, however the feed goes on; if it is not known, nothing is known but the events that were passed.
        ensures next { (bytes : List ℕ) (gone : List FeedEvent)
            → (h : EventFeedStandsFor G.OpenGroup self.now bytes gone)
            → (ended : Bool) (all : List ℕ) (later : List Arrival)
            → CanBecome (has_ended self.now) (G.rules (group_of self.now)).network.pid bytes ended all later
            → IsNext result h.group ended gone (feed_events (G.rules (group_of self.now)) ended all) }
        ensures unknown { result ≡ head.Unknown → (bytes : List ℕ) (gone : List FeedEvent)
            → EventFeedStandsFor G.OpenGroup self.now bytes gone → feed_events (G.rules (group_of self.now))
            false bytes ≡ gone }
    {
        let _key = self.frames.group.key();
        let _ready = self.unpiper.is_ready();
        self.frames.course.head
    }

    /// The packets of the frame that is next.
    pub fn group(&self) -> &G
        ensures value { result.now ≡ group_of self.now }
        ensures intact { G.is_intact result.now ≡ true }
    {
        &self.frames.group
    }

    // Takes a unit.
    fn take_unit(&mut self, unit: &[u8; SIZE])
        requires unknown { head_of self.old ≡ head.Unknown }
        requires room { fed_of self.old + SIZE < 2 ^ 60 }
        ensures stands { (bytes : List ℕ) (gone : List FeedEvent) → EventFeedStandsFor G.OpenGroup self.old bytes gone
            → EventFeedStandsFor G.OpenGroup self.new (bytes ++ unit.now) gone }
        ensures fed { (fed_of self.old ≤ fed_of self.new) × (fed_of self.new ≤ fed_of self.old + SIZE) }
        ensures rules { G.rules (group_of self.new) ≡ G.rules (group_of self.old) }
        ensures ended { has_ended self.new ≡ has_ended self.old }
    {
        accepted_front_law();
        events_push_law();
        let _idle = self.unpiper.is_ready();
        self.unpiper.feed(unit);
        let _ready = self.unpiper.ready();
        self.idle = go_on(
            &mut self.unpiper,
            &mut self.frames,
            is_idle(unit, self.pid),
            false,
        );
    }

    /// Takes whole units of the stream until it is known what is next or fewer than 188 bytes are left, and answers how
    /// many bytes they are. With the piece, fewer than 2^60 bytes were fed in all.
    pub fn feed(&mut self, piece: &[u8]) -> usize
        requires room { fed_of self.old + length piece.now < 2 ^ 60 }
        ensures stands { (bytes : List ℕ) (gone : List FeedEvent) → EventFeedStandsFor G.OpenGroup self.old bytes gone
            → EventFeedStandsFor G.OpenGroup self.new (bytes ++ take result piece.now) gone }
        ensures inside { result ≤ length piece.now }
        ensures some { head_of self.old ≡ head.Unknown → SIZE ≤ length piece.now → SIZE ≤ result }
        ensures stops { head_of self.new ≡ head.Unknown → length piece.now < result + SIZE }
        ensures fed { (fed_of self.old ≤ fed_of self.new) × (fed_of self.new ≤ fed_of self.old + result) }
        ensures rules { G.rules (group_of self.new) ≡ G.rules (group_of self.old) }
        ensures ended { has_ended self.new ≡ has_ended self.old }
    {
        let mut count = 0;
        while piece.len() - count >= SIZE && self.frames.course.head == Head::Unknown {
            self.take_unit(first_unit(&piece[count..]));
            count += SIZE;
        }
        count
    }

    /// No more bytes come behind these, which are no whole unit.
    pub fn finish(&mut self, tail: &[u8])
        requires unknown { head_of self.old ≡ head.Unknown }
        requires short { length tail.now < SIZE }
        ensures stands { (bytes : List ℕ) (gone : List FeedEvent) → EventFeedStandsFor G.OpenGroup self.old bytes gone
            → EventFeedStandsFor G.OpenGroup self.new (bytes ++ tail.now) gone }
        ensures known { head_of self.new ≢ head.Unknown }
        ensures fed { fed_of self.new ≡ fed_of self.old }
        ensures rules { G.rules (group_of self.new) ≡ G.rules (group_of self.old) }
        ensures ended { has_ended self.new ≡ true }
    {
        self.finished = true;
        self.idle = rest(&self.unpiper, &mut self.frames, false, true);
    }

    /// Passes what is next.
    pub fn pass(&mut self)
        requires event { is_event (head_of self.old) ≡ true }
        ensures stands { (bytes : List ℕ) (gone : List FeedEvent)
            → (h : EventFeedStandsFor G.OpenGroup self.old bytes gone)
            → EventFeedStandsFor G.OpenGroup self.new bytes (gone ++ shown self.old h.group) }
        ensures left { left_of self.new < left_of self.old }
        ensures fed { fed_of self.new ≡ fed_of self.old }
        ensures rules { G.rules (group_of self.new) ≡ G.rules (group_of self.old) }
        ensures ended { has_ended self.new ≡ has_ended self.old }
    {
        self.frames.pass();
        self.idle = go_on(
            &mut self.unpiper,
            &mut self.frames,
            self.idle,
            self.finished,
        );
    }
}
