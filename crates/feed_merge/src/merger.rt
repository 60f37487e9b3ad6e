// Frames that are held in, units out.
ghost use Rattle.std.specs.Prelude.{◌≡◌, ◌<◌, ◌≤◌, ◌^◌, true, length};
ghost use Rattle.plp_config.specs.declared.moment.TheConstants.{MOST_FRAMES};
ghost use Rattle.frame_writer.specs.Left.{IsOver};

use frame_writer::{Flow, PoolFrame, PoolPlace, PoolWalk, WalkedPlace};
use plp_config::Plan;
use ts_packet::SIZE;

/// Makes one T2-MI stream of frames: begin a frame, take the units, each with the same frame; behind the last frame
/// finish, and take the rest.
#[derive(Drop)]
pub struct Merger<'p> {
    plan: &'p Plan,
    flow: Flow,
    // How far the packets of the last frame were built. The frame is not kept.
    place: PoolPlace,
    ghost over: { flow.dry ≡ true → IsOver place },
    ghost early: { place.number < MOST_FRAMES },
    ghost inside: { place.plp ≤ length plan.now.plps },
}

// The PID of the T2-MI stream.
fn pid_of(plan: &Plan) -> u16
    ensures value { result ≡ plan.now.pid }
    ensures small { result < 2 ^ 13 }
{
    plan.rules_law();
    plan.config().pid
}

impl<'p> Merger<'p> {
    ghost use Rattle.std.specs.Prelude.{◌≡◌, ◌<◌, ◌≤◌, ◌+◌, ◌*◌, ◌++◌, ℕ, List, [], true, false, length, take, Some};
    ghost use Rattle.std.specs.Prelude.{slice_get};
    ghost use Rattle.t2mi_packet.specs.declared.packet.Body.{Body};
    ghost use Rattle.t2mi_stream.specs.Pipe.{pipe};
    ghost use Rattle.ts_packet.specs.declared.sizes.TheConstants.{SIZE};
    ghost use Rattle.frame_writer.specs.Carried.{of_frame};
    ghost use Rattle.frame_writer.specs.Flowing.{packet_bound};
    ghost use Rattle.frame_writer.specs.FramePackets.{packets_from};
    ghost use Rattle.frame_writer.specs.Left.{CanBeSent, bodies_of};
    ghost use Rattle.feed_merge.specs.StandsFor.{MergerStandsFor, GivesUnits, config_of, frame_of, left_in, has_unit};
    ghost use Rattle.feed_merge.specs.StandsFor.{has_finished, is_fed, bytes_left};

    /// A merger to which no frame was given, for a plan. It takes no memory.
    pub fn new(plan: &'p Plan) -> Merger<'p>
        ensures stands { MergerStandsFor result [] [] 0 }
        ensures config { config_of result ≡ plan.now }
        ensures unit { has_unit result ≡ false }
        ensures finished { has_finished result ≡ false }
    {
        Merger {
            plan,
            flow: Flow::new(pid_of(plan)),
            place: PoolPlace::over(),
        }
    }

    /// Begins a frame: all complete units of the frames before were taken, and [`Merger::finish`] was not called.
    pub fn frame(&mut self, number: u64, frame: &PoolFrame<'_>)
        requires can { CanBeSent (config_of self.old) frame.now }
        requires early { number < MOST_FRAMES }
        requires given { has_unit self.old ≡ false }
        requires open { has_finished self.old ≡ false }
        ensures stands { (all : List (ℕ × Body)) (given : ℕ) → MergerStandsFor self.old [] all given
            → MergerStandsFor self.new (left_in self.new frame.now)
            (all ++ of_frame number (bodies_of (config_of self.old) number frame.now)) given }
        ensures config { config_of self.new ≡ config_of self.old }
        ensures frame { frame_of self.new ≡ number }
        ensures finished { has_finished self.new ≡ false }
        // It has no more to give than its packets have bytes, and what was left.
        ensures more { bytes_left self.new (left_in self.new frame.now)
            ≤ bytes_left self.old [] + packet_bound * length (bodies_of (config_of self.old) number frame.now) }
    {
        let mut place = PoolPlace::first(self.plan, number);
        self.flow.begin(frame, self.plan, &mut place);
        self.place = place;
    }

    /// Gives units of the frames begun, to the front of these bytes, as long as one is complete and there is room: how
    /// many bytes, and whether it was the room that ended. The frame is the last one that was begun.
    pub fn give(&mut self, frame: &PoolFrame<'_>, out: &mut [u8]) -> (usize, bool)
        requires can { CanBeSent (config_of self.old) frame.now }
        requires room { SIZE ≤ length out.old }
        ensures gives { GivesUnits self.old self.new frame.now result.1 (take result.0 out.new) }
        ensures count { result.0 ≤ length out.old }
        // The room ended only if none is left for a unit.
        ensures full { result.1 ≡ true → length out.old < result.0 + SIZE }
        ensures size { length out.new ≡ length out.old }
        ensures frame { frame_of self.new ≡ frame_of self.old }
    {
        let mut source = WalkedPlace {
            place: self.place,
            walk: PoolWalk::new(frame.blocks),
        };
        let (len, full) = self.flow.give(frame, self.plan, &mut source, out);
        self.place = source.place;
        (len, full)
    }

    /// No more frames come: the last one, if there was one, was given out.
    pub fn finish(&mut self)
        requires given { has_unit self.old ≡ false }
        requires open { has_finished self.old ≡ false }
        ensures stands { (left : List Body) (all : List (ℕ × Body)) (given : ℕ)
            → MergerStandsFor self.old left all given
            → MergerStandsFor self.new left all given }
        ensures config { config_of self.new ≡ config_of self.old }
        ensures finished { has_finished self.new ≡ true }
        ensures fed { is_fed self.new ≡ true }
        ensures left { bytes_left self.new [] ≡ bytes_left self.old [] }
    {
        self.flow.finish();
    }

    /// Gives the next unit behind the end, if one is left. Else nothing changes.
    pub fn rest(&mut self, out: &mut [u8; SIZE]) -> bool
        requires finished { has_finished self.old ≡ true }
        requires fed { is_fed self.old ≡ true }
        ensures unit { result ≡ true → (all : List (ℕ × Body)) (given : ℕ) → MergerStandsFor self.old [] all given
            → slice_get (pipe (config_of self.old).pid (packets_from (config_of self.old) 0 all)) given ≡ Some out.new }
        ensures stands { result ≡ true → (all : List (ℕ × Body)) (given : ℕ) → MergerStandsFor self.old [] all given
            → MergerStandsFor self.new [] all (given + 1) }
        ensures none { result ≡ false → (all : List (ℕ × Body)) (given : ℕ) → MergerStandsFor self.old [] all given
            → length (pipe (config_of self.old).pid (packets_from (config_of self.old) 0 all)) ≡ given }
        ensures kept { result ≡ false → (all : List (ℕ × Body)) (given : ℕ) → MergerStandsFor self.old [] all given
            → MergerStandsFor self.new [] all given }
        ensures stays { result ≡ false → out.new ≡ out.old }
        ensures is { result ≡ has_unit self.old }
        ensures less { result ≡ true → bytes_left self.new [] < bytes_left self.old [] }
        ensures config { config_of self.new ≡ config_of self.old }
        ensures finished { has_finished self.new ≡ true }
        ensures fed { is_fed self.new ≡ true }
    {
        self.flow.rest(out)
    }
}
