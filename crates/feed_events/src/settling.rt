// What came into events.
ghost use Rattle.std.specs.Prelude.{◌≡◌, ◌≢◌, ◌<◌, ◌≤◌, Bool, List, ℕ, true, false};
ghost use Rattle.t2mi_stream.specs.UnpiperStandsFor.{is_ready, fed_len, steps_left};
ghost use Rattle.feed_events.specs.FeedEvents.{FeedEvent};
ghost use Rattle.feed_events.specs.StandsFor.{EventsStandFor, is_event, events_left};
ghost use Rattle.feed_events.specs.declared.course.Head.TheVariants as head;

use crate::course::Head;
use crate::frames::Frames;
use frame_groups::OpenGroup;
use t2mi_packet::read_known;
use t2mi_stream::{Unpiper, events_push_law};

// Works off the packet that waits, unless it closes a group that is next then.
fn step<G: OpenGroup + Drop>(unpiper: &mut Unpiper, frames: &mut Frames<G>) -> bool
    requires ready { is_ready unpiper.old ≡ true }
    requires unknown { frames.old.course.head ≡ head.Unknown }
    ensures stands { (idle finished : Bool) (bytes : List ℕ) (gone : List FeedEvent)
        → EventsStandFor (G.holds frames.old.group) (G.rules frames.old.group) unpiper.old frames.old.course
        idle finished bytes gone
        → EventsStandFor (G.holds frames.new.group) (G.rules frames.old.group) unpiper.new frames.new.course
        idle finished bytes
        gone }
    ensures rules { G.rules frames.new.group ≡ G.rules frames.old.group }
    ensures known { result ≡ false → is_event frames.new.course.head ≡ true }
    ensures unknown { result ≡ true → frames.new.course.head ≡ head.Unknown }
    ensures less { result ≡ true → steps_left unpiper.new < steps_left unpiper.old }
    ensures left { (idle : Bool) → events_left unpiper.new frames.new.course idle ≤ events_left unpiper.old
        frames.old.course idle }
    ensures fed { fed_len unpiper.new ≡ fed_len unpiper.old }
{
    events_push_law();
    let packet = read_known(unpiper.bytes());
    if !frames.work(&packet) {
        return false;
    }
    unpiper.release();
    true
}

// Whether a packet waits, and what is next is not known.
fn is_wanted<G: OpenGroup + Drop>(unpiper: &Unpiper, frames: &Frames<G>) -> bool
    ensures yes { result ≡ true → (is_ready unpiper.now ≡ true) × (frames.now.course.head ≡ head.Unknown) }
    ensures no { result ≡ false → frames.now.course.head ≡ head.Unknown → is_ready unpiper.now ≡ false }
{
    frames.course.head == Head::Unknown && unpiper.is_ready()
}

// Works off the packets that wait, until it is known what is next or none waits.
fn settle<G: OpenGroup + Drop>(unpiper: &mut Unpiper, frames: &mut Frames<G>)
    ensures stands { (idle finished : Bool) (bytes : List ℕ) (gone : List FeedEvent)
        → EventsStandFor (G.holds frames.old.group) (G.rules frames.old.group) unpiper.old frames.old.course
        idle finished bytes gone
        → EventsStandFor (G.holds frames.new.group) (G.rules frames.old.group) unpiper.new frames.new.course
        idle finished bytes
        gone }
    ensures rules { G.rules frames.new.group ≡ G.rules frames.old.group }
    ensures done { frames.new.course.head ≡ head.Unknown → is_ready unpiper.new ≡ false }
    ensures over { frames.old.course.head ≢ head.Over → frames.new.course.head ≢ head.Over }
    ensures left { (idle : Bool) → events_left unpiper.new frames.new.course idle ≤ events_left unpiper.old
        frames.old.course idle }
    ensures fed { fed_len unpiper.new ≡ fed_len unpiper.old }
{
    while is_wanted(unpiper, frames) {
        if !step(unpiper, frames) {
            return;
        }
    }
}

/// An idle unit and the end come behind the packets. Whether the idle unit has to come again.
pub(crate) fn rest<G: OpenGroup + Drop>(
    unpiper: &Unpiper,
    frames: &mut Frames<G>,
    idle: bool,
    finished: bool,
) -> bool
    ensures stands { (bytes : List ℕ) (gone : List FeedEvent)
        → EventsStandFor (G.holds frames.old.group) (G.rules frames.old.group) unpiper.now frames.old.course
        idle finished bytes gone
        → EventsStandFor (G.holds frames.new.group) (G.rules frames.old.group) unpiper.now frames.new.course
        result finished bytes
        gone }
    ensures rules { G.rules frames.new.group ≡ G.rules frames.old.group }
    ensures done { (frames.old.course.head ≡ head.Unknown → is_ready unpiper.now ≡ false)
        → frames.new.course.head ≡ head.Unknown
        → (is_ready unpiper.now ≡ false) × (result ≡ false) × (finished ≡ false) }
    ensures over { frames.old.course.head ≢ head.Over → frames.new.course.head ≡ head.Over
        → (is_ready unpiper.now ≡ false) × (result ≡ false) × (finished ≡ true) }
    ensures left { events_left unpiper.now frames.new.course result ≤ events_left unpiper.now frames.old.course idle }
{
    if frames.course.head != Head::Unknown || unpiper.is_ready() {
        return idle;
    }
    if idle {
        return !frames.fall_silent();
    }
    if finished {
        frames.end();
    }
    false
}

/// Goes on until it is known what is next, or nothing is left of what came. Whether an idle unit is left.
pub(crate) fn go_on<G: OpenGroup + Drop>(
    unpiper: &mut Unpiper,
    frames: &mut Frames<G>,
    idle: bool,
    finished: bool,
) -> bool
    ensures stands { (bytes : List ℕ) (gone : List FeedEvent)
        → EventsStandFor (G.holds frames.old.group) (G.rules frames.old.group) unpiper.old frames.old.course
        idle finished bytes gone
        → EventsStandFor (G.holds frames.new.group) (G.rules frames.old.group) unpiper.new frames.new.course
        result finished bytes
        gone }
    ensures rules { G.rules frames.new.group ≡ G.rules frames.old.group }
    ensures done { frames.new.course.head ≡ head.Unknown → (is_ready unpiper.new ≡ false) × (result ≡ false)
        × (finished ≡ false) }
    ensures over { frames.old.course.head ≢ head.Over → frames.new.course.head ≡ head.Over
        → (is_ready unpiper.new ≡ false) × (result ≡ false) × (finished ≡ true) }
    ensures left { events_left unpiper.new frames.new.course result ≤ events_left unpiper.old frames.old.course idle }
    ensures fed { fed_len unpiper.new ≡ fed_len unpiper.old }
{
    settle(unpiper, frames);
    rest(unpiper, frames, idle, finished)
}
