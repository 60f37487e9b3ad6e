// Frames in, units out.
ghost use Rattle.std.specs.Prelude.{◌≡◌, ◌<◌, ◌≤◌, ◌/◌, ◌^◌, ℕ, Some, true, length};
ghost use Rattle.plp_config.specs.declared.moment.TheConstants.{MOST_FRAMES};
ghost use Rattle.frame_writer.specs.Left.{IsOver};
ghost use Rattle.spaced_frames.specs.Spaced.{first_frame};
ghost use Rattle.spaced_frames.specs.declared.stage.Stage.TheVariants as at;

use crate::few::few_blocks;
use crate::spacer::{FARTHEST, Spacer};
use crate::stage::Stage;
use frame_writer::{Flow, PoolFrame, PoolPlace, PoolWalk, WalkedPlace};
use plp_config::Plan;
use t2mi_stream::complete_law;
use ts_packet::SIZE;

/// Makes one T2-MI stream of frames, and of superframes of a timestamp alone where a frame is further behind the one
/// before than who counts them can know: begin a frame, take its units, each with the same frame; behind the last one
/// finish, and take the rest.
#[derive(Drop)]
pub struct Sender<'p> {
    plan: &'p Plan,
    flow: Flow,
    // The number of the last frame that was sent, and of the one that is under way.
    last: Option<u64>,
    number: u64,
    stage: Stage,
    // The superframe of a timestamp alone that is under way, and this timestamp.
    superframe: u64,
    spacer: Spacer,
    // How far the frame was built that is under way.
    place: PoolPlace,
    ghost early: { number < MOST_FRAMES },
    ghost place_early: { place.number < MOST_FRAMES },
    ghost inside: { place.plp ≤ length plan.now.plps },
    ghost spacer_is: { spacer.number < MOST_FRAMES },
    ghost near: { superframe < MOST_FRAMES },
    ghost small: { (n : ℕ) → last ≡ Some n → n < MOST_FRAMES },
    ghost spaced: { stage ≡ at.Spaces → flow.dry ≡ true → spacer.over ≡ true },
    ghost sent: { stage ≡ at.Sends → flow.dry ≡ true → IsOver place },
    ghost open: { flow.finished ≡ true → stage ≡ at.Idle },
    ghost idle: { stage ≡ at.Idle → flow.dry ≡ true },
}

// The PID of the T2-MI stream.
fn pid_of(plan: &Plan) -> u16
    ensures value { result ≡ plan.now.pid }
    ensures small { result < 2 ^ 13 }
{
    plan.rules_law();
    plan.config().pid
}

// The first frame of a superframe that begins before a frame of a run ends.
fn first_frame(plan: &Plan, superframe: u64) -> u64
    requires { superframe < MOST_FRAMES }
    ensures { result ≡ first_frame plan.now superframe }
{
    superframe * u64::from(plan.config().frames)
}

// The superframe of a frame.
fn superframe_of(plan: &Plan, number: u64) -> u64
    ensures { result ≡ number / plan.now.frames }
{
    plan.rules_law();
    number / u64::from(plan.config().frames)
}

impl<'p> Sender<'p> {
    ghost use Rattle.std.specs.Prelude.{◌≡◌, ◌≢◌, ◌<◌, ◌≤◌, ◌+◌, ◌*◌, ◌/◌, ◌%◌, ◌^◌, ◌++◌, ◌∷◌, ℕ, List, [], true};
    ghost use Rattle.std.specs.Prelude.{false, length, take, None};
    ghost use Rattle.ts_packet.specs.declared.sizes.TheConstants.{SIZE};
    ghost use Rattle.t2mi_stream.specs.Complete.{complete_units};
    ghost use Rattle.t2mi_stream.specs.Pipe.{pipe};
    ghost use Rattle.frame_writer.specs.Left.{CanBeSent};
    ghost use Rattle.frame_writer.specs.Carried.{of_frame};
    ghost use Rattle.spaced_frames.specs.Spaced.{SentFrame, spaced, spacer, spacers_behind, spacers_between};
    ghost use Rattle.spaced_frames.specs.StandsFor.{SenderStandsFor, Content, content_of, bodies_as, is_idle, has_unit};
    ghost use Rattle.spaced_frames.specs.StandsFor.{has_finished, Begun, GoesOn, sent_as, config_of, HasGiven, left_in};
    ghost use Rattle.spaced_frames.specs.StandsFor.{left_of, rest_of, most_left};
    ghost use Rattle.frame_writer.specs.Flowing.{bytes_bound, at_hand, packet_bound};
    ghost use Rattle.spaced_frames.specs.declared.stage.Stage.TheVariants as at;

    /// A sender of no frames yet, for a plan. It takes no memory.
    pub fn new(plan: &'p Plan) -> Sender<'p>
        ensures stands { (x : Content) → SenderStandsFor plan.now result x [] [] }
        ensures config { config_of result ≡ plan.now }
        ensures idle { is_idle result }
        ensures unit { has_unit result ≡ false }
        ensures finished { has_finished result ≡ false }
    {
        Sender {
            plan,
            flow: Flow::new(pid_of(plan)),
            last: None,
            number: 0,
            stage: Stage::Idle,
            superframe: 0,
            spacer: Spacer {
                number: 0,
                over: true,
            },
            place: PoolPlace::over(),
        }
    }

    // Begins the frame.
    fn begin_frame(&mut self, number: u64, frame: &PoolFrame<'_>)
        requires can { CanBeSent (config_of self.old) frame.now }
        requires early { number < MOST_FRAMES }
        requires open { has_finished self.old ≡ false }
        ensures begun { Begun self.old self.new
            (of_frame number (bodies_as (config_of self.old) number (content_of frame.now)))
            (content_of frame.now) }
        ensures bound { bytes_bound self.new.flow.outlet (left_in (config_of self.old) self.new.stage
            self.new (content_of frame.now))
            ≤ at_hand self.old.flow.outlet
            + packet_bound * length (of_frame number (bodies_as (config_of self.old) number (content_of frame.now))) }
        ensures stage { self.new.stage ≡ at.Sends }
        ensures number { self.new.number ≡ number }
        ensures config { config_of self.new ≡ config_of self.old }
        ensures finished { has_finished self.new ≡ false }
    {
        let mut place = PoolPlace::first(self.plan, number);
        self.flow.begin(frame, self.plan, &mut place);
        self.place = place;
        self.number = number;
        self.stage = Stage::Sends;
    }

    // Begins a superframe of a timestamp alone, before a frame.
    fn begin_spacer(&mut self, superframe: u64, number: u64)
        requires open { has_finished self.old ≡ false }
        requires early { number < MOST_FRAMES }
        requires before { superframe < number / (config_of self.old).frames }
        ensures begun { (x : Content) → Begun self.old self.new (spacer (config_of self.old) superframe) x }
        ensures bound { (x : Content) → bytes_bound self.new.flow.outlet (left_in (config_of self.old)
            self.new.stage self.new x)
            ≤ at_hand self.old.flow.outlet + packet_bound * length (spacer (config_of self.old) superframe) }
        ensures stage { self.new.stage ≡ at.Spaces }
        ensures number { (self.new.number ≡ number) × (self.new.superframe ≡ superframe) }
        ensures config { config_of self.new ≡ config_of self.old }
        ensures finished { has_finished self.new ≡ false }
    {
        self.plan.rules_law();
        let mut spacer = Spacer {
            number: first_frame(self.plan, superframe),
            over: false,
        };
        self.flow.begin(&(), self.plan, &mut spacer);
        self.spacer = spacer;
        self.superframe = superframe;
        self.number = number;
        self.stage = Stage::Spaces;
    }

    // Goes on behind a superframe: with one of a timestamp alone, or with the frame.
    fn go_on(&mut self, superframe: u64, number: u64, frame: &PoolFrame<'_>)
        requires can { CanBeSent (config_of self.old) frame.now }
        requires early { number < MOST_FRAMES }
        requires open { has_finished self.old ≡ false }
        requires small { superframe < 2 ^ 63 }
        ensures goes { GoesOn self.old self.new (spacers_behind (config_of self.old) superframe
            (spacers_between superframe (number / (config_of self.old).frames))) number (content_of frame.now) }
        ensures left { left_of (config_of self.old) self.new (content_of frame.now)
            ≤ at_hand self.old.flow.outlet + packet_bound * length (spacers_behind (config_of self.old) superframe
            (spacers_between superframe (number / (config_of self.old).frames))
            ++ of_frame number (bodies_as (config_of self.old) number (content_of frame.now)))
            + 1 + spacers_between superframe (number / (config_of self.old).frames) }
        ensures stage { self.new.stage ≢ at.Idle }
        ensures number { self.new.number ≡ number }
        ensures config { config_of self.new ≡ config_of self.old }
        ensures finished { has_finished self.new ≡ false }
    {
        if superframe_of(self.plan, number) > superframe + FARTHEST {
            self.begin_spacer(superframe + FARTHEST, number);
        } else {
            self.begin_frame(number, frame);
        }
    }

    /// Begins a frame, behind the one before. All complete units of that one were taken.
    pub fn begin(&mut self, number: u64, frame: &PoolFrame<'_>)
        requires idle { is_idle self.old }
        requires can { CanBeSent (config_of self.old) frame.now }
        requires early { number < MOST_FRAMES }
        requires open { has_finished self.old ≡ false }
        ensures stands { (x : Content) (frames : List SentFrame) (gave : List ℕ)
            → SenderStandsFor (config_of self.old) self.old x frames gave
            → SenderStandsFor (config_of self.old) self.new (content_of frame.now)
            (frames ++ sent_as (config_of self.old) number (content_of frame.now) ∷ []) gave }
        ensures left { left_of (config_of self.old) self.new (content_of frame.now) < most_left }
        ensures busy { is_idle self.new → ⊥ }
        ensures config { config_of self.new ≡ config_of self.old }
        ensures finished { has_finished self.new ≡ false }
    {
        few_blocks(self.plan, frame);
        match self.last {
            Some(last) => self.go_on(superframe_of(self.plan, last), number, frame),
            None => self.begin_frame(number, frame),
        }
    }

    // Gives units as long as a superframe of a timestamp alone is under way, to the front of these bytes: how many
    // bytes.
    fn give_spacer(&mut self, frame: &PoolFrame<'_>, out: &mut [u8]) -> usize
        requires can { CanBeSent (config_of self.old) frame.now }
        requires spaces { self.old.stage ≡ at.Spaces }
        requires room { SIZE ≤ length out.old }
        ensures stands { (frames : List SentFrame) (gave : List ℕ)
            → SenderStandsFor (config_of self.old) self.old (content_of frame.now) frames gave
            → SenderStandsFor (config_of self.old) self.new (content_of frame.now) frames
            (gave ++ take result out.new) }
        ensures less { left_of (config_of self.old) self.new (content_of frame.now)
            < left_of (config_of self.old) self.old (content_of frame.now) }
        ensures count { result ≤ length out.old }
        ensures whole { result % SIZE ≡ 0 }
        ensures size { length out.new ≡ length out.old }
        ensures busy { self.new.stage ≢ at.Idle }
        ensures config { config_of self.new ≡ config_of self.old }
        ensures finished { has_finished self.new ≡ false }
    {
        let (len, full) = self.flow.give(&(), self.plan, &mut self.spacer, out);
        if !full {
            self.go_on(self.superframe, self.number, frame);
        }
        len
    }

    // Gives units of the frame, to the front of these bytes: how many bytes, and whether it was the room that ended.
    fn give_frame(&mut self, frame: &PoolFrame<'_>, out: &mut [u8]) -> (usize, bool)
        requires can { CanBeSent (config_of self.old) frame.now }
        requires sends { self.old.stage ≡ at.Sends }
        requires room { SIZE ≤ length out.old }
        ensures stands { (frames : List SentFrame) (gave : List ℕ)
            → SenderStandsFor (config_of self.old) self.old (content_of frame.now) frames gave
            → SenderStandsFor (config_of self.old) self.new (content_of frame.now) frames
            (gave ++ take result.0 out.new) }
        ensures caught { result.1 ≡ false → (frames : List SentFrame) (gave : List ℕ)
            → SenderStandsFor (config_of self.old) self.old (content_of frame.now) frames gave
            → HasGiven complete_units (config_of self.old) frames (gave ++ take result.0 out.new) }
        ensures less { left_of (config_of self.old) self.new (content_of frame.now)
            < left_of (config_of self.old) self.old (content_of frame.now) }
        ensures count { result.0 ≤ length out.old }
        ensures whole { result.0 % SIZE ≡ 0 }
        ensures size { length out.new ≡ length out.old }
        ensures idle { result.1 ≡ false → is_idle self.new }
        ensures busy { result.1 ≡ true → self.new.stage ≢ at.Idle }
        ensures config { config_of self.new ≡ config_of self.old }
        ensures finished { has_finished self.new ≡ false }
    {
        let mut source = WalkedPlace {
            place: self.place,
            walk: PoolWalk::new(frame.blocks),
        };
        let (len, full) = self.flow.give(frame, self.plan, &mut source, out);
        self.place = source.place;
        if !full {
            self.last = Some(self.number);
            self.stage = Stage::Idle;
        }
        (len, full)
    }

    /// Gives units of the frame that is under way, and of what comes before it, to the front of these bytes: how many
    /// bytes, and whether the frame is still under way. If not, all complete units of the frames begun were given.
    pub fn give(&mut self, frame: &PoolFrame<'_>, out: &mut [u8]) -> (usize, bool)
        requires can { CanBeSent (config_of self.old) frame.now }
        requires busy { self.old.stage ≢ at.Idle }
        requires room { SIZE ≤ length out.old }
        ensures stands { (frames : List SentFrame) (gave : List ℕ)
            → SenderStandsFor (config_of self.old) self.old (content_of frame.now) frames gave
            → SenderStandsFor (config_of self.old) self.new (content_of frame.now) frames
            (gave ++ take result.0 out.new) }
        ensures caught { result.1 ≡ false → (frames : List SentFrame) (gave : List ℕ)
            → SenderStandsFor (config_of self.old) self.old (content_of frame.now) frames gave
            → HasGiven complete_units (config_of self.old) frames (gave ++ take result.0 out.new) }
        // So a loop that takes units ends.
        ensures less { left_of (config_of self.old) self.new (content_of frame.now)
            < left_of (config_of self.old) self.old (content_of frame.now) }
        ensures count { result.0 ≤ length out.old }
        ensures whole { result.0 % SIZE ≡ 0 }
        ensures size { length out.new ≡ length out.old }
        ensures idle { result.1 ≡ false → is_idle self.new }
        ensures busy { result.1 ≡ true → self.new.stage ≢ at.Idle }
        ensures config { config_of self.new ≡ config_of self.old }
        ensures finished { has_finished self.new ≡ false }
    {
        if self.stage == Stage::Sends {
            return self.give_frame(frame, out);
        }
        (self.give_spacer(frame, out), true)
    }

    /// No more frames come: the last one, if there was one, was given out.
    pub fn finish(&mut self)
        requires idle { is_idle self.old }
        requires open { has_finished self.old ≡ false }
        ensures stands { (x : Content) (frames : List SentFrame) (gave : List ℕ)
            → SenderStandsFor (config_of self.old) self.old x frames gave
            → SenderStandsFor (config_of self.old) self.new x frames gave }
        ensures idle { is_idle self.new }
        ensures config { config_of self.new ≡ config_of self.old }
        ensures finished { has_finished self.new ≡ true }
        ensures left { rest_of self.new < most_left }
    {
        self.flow.finish();
    }

    /// Gives the next unit behind the end, if one is left. Else nothing changes.
    pub fn rest(&mut self, out: &mut [u8; SIZE]) -> bool
        requires idle { is_idle self.old }
        requires finished { has_finished self.old ≡ true }
        ensures stands { result ≡ true → (x : Content) (frames : List SentFrame) (gave : List ℕ)
            → SenderStandsFor (config_of self.old) self.old x frames gave
            → SenderStandsFor (config_of self.old) self.new x frames (gave ++ out.new) }
        ensures all { result ≡ false → (x : Content) (frames : List SentFrame) (gave : List ℕ)
            → SenderStandsFor (config_of self.old) self.old x frames gave
            → HasGiven pipe (config_of self.old) frames gave }
        ensures kept { result ≡ false → (x : Content) (frames : List SentFrame) (gave : List ℕ)
            → SenderStandsFor (config_of self.old) self.old x frames gave
            → SenderStandsFor (config_of self.old) self.new x frames gave }
        ensures stays { result ≡ false → out.new ≡ out.old }
        ensures less { result ≡ true → rest_of self.new < rest_of self.old }
        ensures idle { is_idle self.new }
        ensures config { config_of self.new ≡ config_of self.old }
        ensures finished { has_finished self.new ≡ true }
    {
        self.flow.rest(out)
    }
}
