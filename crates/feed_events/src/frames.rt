// The groups of a feed, one behind another.
ghost use Rattle.std.specs.Prelude.{◌≡◌, ◌<◌, ◌||◌, ℕ, Some, is_some, true, false};
ghost use Rattle.plp_config.specs.declared.moment.TheConstants.{MOST_FRAMES};
ghost use Rattle.feed_events.specs.FeedEvents.{is_stamp};
ghost use Rattle.feed_events.specs.declared.course.Head.TheVariants as head;

use crate::course::{Course, Head, head_of, number_after};
use frame_groups::{OpenGroup, goes_on, is_counted, key_behind};
use t2mi_packet::{Body, Packet};

// Whether a packet is a timestamp.
fn is_stamp(packet: &Packet<'_>) -> bool
    ensures { result ≡ is_stamp packet.now }
{
    matches!(&packet.body, Body::Timestamp(_))
}

// Whether packets have a timestamp, with one packet more.
fn stamped_with(stamped: bool, packet: &Packet<'_>) -> bool
    ensures { result ≡ (stamped || is_stamp packet.now) }
{
    stamped || is_stamp(packet)
}

// The group under way, or the last one, and where the groups are. One without a timestamp has the number behind that of
// the one before.
#[derive(Drop)]
pub(crate) struct Frames<G: OpenGroup + Drop> {
    pub group: G,
    pub course: Course,
    ghost intact: { G.is_intact group ≡ true },
    ghost some: { course.under_way ≡ true → is_some (G.key_now group) ≡ true },
    ghost small: { (n : ℕ) → course.last ≡ Some n → n < MOST_FRAMES },
    ghost early: { (n : ℕ) → course.head ≡ head.Frame n → n < MOST_FRAMES },
    ghost shown: { (n : ℕ) → course.head ≡ head.Frame n → is_some (G.key_now group) ≡ true },
    // What is next comes before the group under way.
    ghost known: { course.under_way ≡ true → course.head ≡ head.Unknown },
}

impl<G: OpenGroup + Drop> Frames<G> {
    ghost use Rattle.std.specs.Prelude.{◌≡◌, ◌<◌, ◌≤◌, ◌+◌, ℕ, ◌∷◌, [], List, Option, Some, None, true, false};
    ghost use Rattle.std.specs.Prelude.{if◌then◌else◌};
    ghost use Rattle.t2mi_packet.specs.T2miPacket.{Fits};
    ghost use Rattle.frame_groups.specs.Groups.{Group, is_counted, is_same, key_behind};
    ghost use Rattle.feed_events.specs.Arrivals.Arrival.{Came, Idle};
    ghost use Rattle.frame_groups.specs.Modulated.{Numbered};
    ghost use Rattle.feed_events.specs.FeedEvents.{number_of};
    ghost use Rattle.feed_events.specs.StandsFor.{is_known, is_event, events_of};
    ghost use Rattle.feed_events.specs.Under.{IsHeld, SameIfClosed, Went, Ended, course_events, start};
    ghost use Rattle.feed_events.specs.declared.course.Head.TheVariants as head;

    // No packet came.
    pub fn new(group: G) -> Frames<G>
        requires none { G.holds group [] None }
        requires intact { G.is_intact group ≡ true }
        ensures held { IsHeld (G.holds result.group) result.course None }
        ensures start { result.course ≡ start }
        ensures rules { G.rules result.group ≡ G.rules group }
    {
        Frames {
            group,
            course: Course {
                head: Head::Unknown,
                under_way: false,
                stamped: false,
                last: None,
            },
        }
    }

    // The number of the group under way: that of the frame which its first timestamp names; without a timestamp the
    // next one.
    fn number(&self) -> Option<u64>
        requires some { self.now.course.under_way ≡ true }
        ensures value { (h : Group) → IsHeld (G.holds self.now.group) self.now.course (Some h)
            → result ≡ number_of (G.rules self.now.group) self.now.course.last h }
        ensures small { (n : ℕ) → result ≡ Some n → n < MOST_FRAMES }
    {
        if self.course.stamped {
            return self.group.named();
        }
        let Some(key) = self.group.key() else {
            return None;
        };
        number_after(self.group.frames(), self.course.last, key)
    }

    // Closes the group under way, if there is one, and answers whether it is next.
    fn close(&mut self) -> bool
        requires unknown { self.old.course.head ≡ head.Unknown }
        ensures held { (g : Option Group) → IsHeld (G.holds self.old.group) self.old.course g
            → IsHeld (G.holds self.new.group) self.new.course g }
        ensures same { (g : Option Group) → IsHeld (G.holds self.old.group) self.old.course g
            → SameIfClosed (G.rules self.old.group) self.old.course self.new.course g }
        ensures event { result ≡ true → is_event self.new.course.head ≡ true }
        ensures none { result ≡ false → self.new.course.head ≡ head.Unknown }
        ensures closed { self.new.course.under_way ≡ false }
        ensures events { events_of self.new.course ≤ events_of self.old.course }
        ensures group { self.new.group ≡ self.old.group }
    {
        if !self.course.under_way {
            return false;
        }
        let _key = self.group.key();
        let number = self.number();
        self.course = Course {
            head: head_of(number),
            under_way: false,
            stamped: self.course.stamped,
            last: number,
        };
        number.is_some()
    }

    // Begins a group.
    fn begin(&mut self, packet: &Packet<'_>)
        requires none { self.old.course.under_way ≡ false }
        requires unknown { self.old.course.head ≡ head.Unknown }
        requires fits { Fits packet.now }
        requires counted { is_counted (G.rules self.old.group).frames packet.now ≡ true }
        ensures went { (g : Option Group) → IsHeld (G.holds self.old.group) self.old.course g
            → Went (G.holds self.new.group) (G.rules self.old.group) self.new.course
            (course_events (G.rules self.old.group) self.old.course g) (Came packet.now ∷ []) [] }
        ensures rules { G.rules self.new.group ≡ G.rules self.old.group }
        ensures unknown { self.new.course.head ≡ head.Unknown }
        ensures most { events_of self.new.course ≤ 1 }
    {
        self.group.begin(None, key_behind(None, packet), packet);
        self.course = Course {
            head: Head::Unknown,
            under_way: true,
            stamped: is_stamp(packet),
            last: self.course.last,
        };
    }

    // Whether a packet has the key of the group under way.
    fn goes_on(&self, packet: &Packet<'_>) -> bool
        ensures yes { result ≡ true → self.now.course.under_way ≡ true }
        ensures same { result ≡ true → (own : List Numbered) (h : Group) → G.holds self.now.group own (Some h)
            → is_same h.key (key_behind (Some h.key) packet.now) ≡ true }
        ensures other { result ≡ false → self.now.course.under_way ≡ true → (own : List Numbered) (h : Group)
            → G.holds self.now.group own (Some h) → is_same h.key (key_behind (Some h.key) packet.now) ≡ false }
    {
        if !self.course.under_way {
            return false;
        }
        match self.group.key() {
            Some(key) => goes_on(key, packet),
            None => false,
        }
    }

    // Adds a packet with the key of the group under way.
    fn add(&mut self, packet: &Packet<'_>)
        requires some { self.old.course.under_way ≡ true }
        requires fits { Fits packet.now }
        requires counted { is_counted (G.rules self.old.group).frames packet.now ≡ true }
        requires same { (own : List Numbered) (h : Group) → G.holds self.old.group own (Some h)
            → is_same h.key (key_behind (Some h.key) packet.now) ≡ true }
        ensures went { (g : Option Group) → IsHeld (G.holds self.old.group) self.old.course g
            → Went (G.holds self.new.group) (G.rules self.old.group) self.new.course
            (course_events (G.rules self.old.group) self.old.course g) (Came packet.now ∷ []) [] }
        ensures rules { G.rules self.new.group ≡ G.rules self.old.group }
        ensures unknown { self.new.course.head ≡ head.Unknown }
        ensures most { events_of self.new.course ≤ 1 }
    {
        let _key = self.group.key();
        self.group.add(packet);
        self.course.stamped = stamped_with(self.course.stamped, packet);
    }

    /// Works off a packet, unless it closes a group that is next then: then it has to come again, once the group was
    /// passed.
    pub fn work(&mut self, packet: &Packet<'_>) -> bool
        requires unknown { self.old.course.head ≡ head.Unknown }
        requires fits { Fits packet.now }
        ensures went { result ≡ true → (g : Option Group) → IsHeld (G.holds self.old.group) self.old.course g
            → Went (G.holds self.new.group) (G.rules self.old.group) self.new.course
            (course_events (G.rules self.old.group) self.old.course g) (Came packet.now ∷ []) [] }
        ensures waits { result ≡ false → (g : Option Group) → IsHeld (G.holds self.old.group) self.old.course g
            → Went (G.holds self.new.group) (G.rules self.old.group) self.new.course
            (course_events (G.rules self.old.group) self.old.course g) (Came packet.now ∷ []) (Came packet.now ∷ []) }
        ensures known { result ≡ false → is_event self.new.course.head ≡ true }
        ensures unknown { result ≡ true → self.new.course.head ≡ head.Unknown }
        ensures rules { G.rules self.new.group ≡ G.rules self.old.group }
        ensures events { result ≡ false → events_of self.new.course ≤ events_of self.old.course }
        ensures most { result ≡ true → events_of self.new.course ≤ 1 }
    {
        if !is_counted(self.group.frames(), packet) {
            return true;
        }
        if self.goes_on(packet) {
            self.add(packet);
            return true;
        }
        if self.close() {
            return false;
        }
        self.begin(packet);
        true
    }

    /// An idle unit came. It has to come again, if it closes a group that is next then.
    pub fn fall_silent(&mut self) -> bool
        requires unknown { self.old.course.head ≡ head.Unknown }
        ensures went { result ≡ true → (g : Option Group) → IsHeld (G.holds self.old.group) self.old.course g
            → Went (G.holds self.new.group) (G.rules self.old.group) self.new.course
            (course_events (G.rules self.old.group) self.old.course g) (Idle ∷ []) [] }
        ensures waits { result ≡ false → (g : Option Group) → IsHeld (G.holds self.old.group) self.old.course g
            → Went (G.holds self.new.group) (G.rules self.old.group) self.new.course
            (course_events (G.rules self.old.group) self.old.course g) (Idle ∷ []) (Idle ∷ []) }
        ensures known { is_event self.new.course.head ≡ true }
        ensures rules { G.rules self.new.group ≡ G.rules self.old.group }
        ensures events { events_of self.new.course ≤ events_of self.old.course + (if result then 1 else 0) }
    {
        if self.close() {
            return false;
        }
        self.course.last = None;
        self.course.head = Head::Silent;
        true
    }

    /// Nothing more comes.
    pub fn end(&mut self)
        requires unknown { self.old.course.head ≡ head.Unknown }
        ensures ended { (g : Option Group) → IsHeld (G.holds self.old.group) self.old.course g
            → Ended (G.holds self.new.group) (G.rules self.old.group) self.new.course
            (course_events (G.rules self.old.group) self.old.course g) }
        ensures known { is_known self.new.course.head ≡ true }
        ensures rules { G.rules self.new.group ≡ G.rules self.old.group }
        ensures events { events_of self.new.course ≤ events_of self.old.course }
    {
        if !self.close() {
            self.course.head = Head::Over;
        }
    }

    /// What is next was passed.
    pub fn pass(&mut self)
        requires event { is_event self.old.course.head ≡ true }
        ensures course { self.new.course ≡ record self.old.course { head = head.Unknown } }
        ensures group { self.new.group ≡ self.old.group }
        ensures fewer { events_of self.new.course < events_of self.old.course }
    {
        self.course.head = Head::Unknown;
    }
}
