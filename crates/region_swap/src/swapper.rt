// Frames that are held and the packets of a region in, units out.
ghost use Rattle.std.specs.Prelude.{◌≡◌, ◌≤◌, ◌+◌, ◌<◌, ◌^◌, false, if◌then◌else◌};
ghost use Rattle.plp_config.specs.declared.moment.TheConstants.{MOST_FRAMES};
ghost use Rattle.gateway_core.specs.InputSoFar.{Told, in_next};
ghost use Rattle.gateway_core.specs.IsFed.{wanted};
ghost use Rattle.region_swap.specs.Inside.{AreParts};
ghost use Rattle.region_swap.specs.RegionFed.{RegionStandsFor, IsRegionOf, region_told};

use crate::dynamic::Dynamic;
use crate::laws::{swapped_law, told_law};
use crate::place::{SwapPlace, SwapSource, SwappedFrame};
use crate::region::Region;
use bit_slice::OutOfMemory;
use frame_writer::{Flow, PoolFrame};
use plp_config::Plan;
use std::alloc::Global;
use ts_packet::{SIZE, TsPacket};

/// Makes the T2-MI stream of a network (ETSI TS 102 773) of frames that are held, with the packets of one PLP replaced
/// by those of another input: offer the packets that the frame under way wants, begin it, if it is there, take the
/// units, each time with the same frame, and pass to the next; behind the last frame finish, and take the rest. Packet
/// k of the input stands in slot k of the run.
#[derive(Drop)]
pub struct Swapper<'p> {
    plan: &'p Plan,
    // The place of the PLP, which is that of its list.
    list: u32,
    region: Region,
    // The dynamic part of the last frame that was begun.
    dynamic: Dynamic,
    flow: Flow,
    // How far the packets of the last frame were built. The frame is not kept.
    place: SwapPlace,
    // The frame under way, and whether it was begun.
    number: u64,
    begun: bool,
    ghost parts: { AreParts plan.now list region dynamic flow.dry place number begun },
}

// The PID of the T2-MI stream.
fn pid_of(plan: &Plan) -> u16
    ensures value { result ≡ plan.now.pid }
    ensures small { result < 2 ^ 13 }
{
    plan.rules_law();
    plan.config().pid
}

// Goes on behind the frame under way: once it was begun, its packets were taken and its blocks sent.
fn pass_region(region: &mut Region, plan: &Plan, list: u32, begun: bool)
    requires of { IsRegionOf region.old plan.now list }
    requires wanted { begun ≡ false → wanted region.old.input ≡ 0 }
    requires free { begun ≡ false → region.old.sends ≡ false }
    requires early { begun ≡ false → region.old.next ≤ MOST_FRAMES }
    ensures stands { (t : Told) → RegionStandsFor region.old plan.now list (region_told begun t)
        → RegionStandsFor region.new plan.now list (in_next t) }
    ensures of { IsRegionOf region.new plan.now list }
    ensures free { region.new.sends ≡ false }
    ensures next { region.new.next ≡ (if begun then region.old.next else region.old.next + 1) }
{
    if begun {
        region.leave(plan, list);
        return;
    }
    region.advance(plan, list);
    region.leave(plan, list);
}

impl<'p> Swapper<'p> {
    ghost use Rattle.std.specs.Prelude.{◌≡◌, ◌<◌, ◌≤◌, ◌+◌, ◌*◌, ◌++◌, ◌∷◌, ℕ, List, [], true, false, length, take};
    ghost use Rattle.std.specs.Prelude.{Some, slice_get, IfOk};
    ghost use Rattle.plp_config.specs.declared.config.Config.{Config};
    ghost use Rattle.plp_config.specs.declared.moment.TheConstants.{MOST_FRAMES};
    ghost use Rattle.ts_packet.specs.declared.sizes.TheConstants.{SIZE};
    ghost use Rattle.t2mi_packet.specs.declared.packet.Body.{Body};
    ghost use Rattle.t2mi_stream.specs.Pipe.{pipe};
    ghost use Rattle.site_frame.specs.declared.reading.RecordView.{RecordView};
    ghost use Rattle.frame_writer.specs.Flowing.{packet_bound};
    ghost use Rattle.frame_writer.specs.Left.{CanBeSent};
    ghost use Rattle.stream_laws.specs.Remade.{NumberedView, remade_packets, view_bodies};
    ghost use Rattle.gateway_core.specs.InputSoFar.{Told, with_packet, at_end, in_next, Continues};
    ghost use Rattle.region_swap.specs.Held.{IsHeld, HasRecord};
    ghost use Rattle.region_swap.specs.Swapped.{swapped, swapped_view};
    ghost use Rattle.region_swap.specs.StandsFor.{SwapperStandsFor, GivesUnits, wants_of, wants_by, frame_of, has_unit};
    ghost use Rattle.region_swap.specs.StandsFor.{is_fed, status_of, new_status, none_told, left_in, bytes_left};

    /// A swapper to which nothing was given, for the PLP at a place of a plan. Frame 0 is under way. It takes all the
    /// memory that it needs.
    pub fn open(alloc: Global, plan: &'p Plan, plp: usize) -> Result<Swapper<'p>, OutOfMemory>
        requires { plp < length plan.now.plps }
        ensures stands { IfOk result (λ s. SwapperStandsFor s plan.now plp none_told [] [] 0) }
        ensures unit { IfOk result (λ s. has_unit s ≡ false) }
        ensures status { IfOk result (λ s. status_of s ≡ new_status plan.now plp) }
    {
        let region = Region::open(alloc, plan, plp)?;
        let dynamic = Dynamic::open(alloc, plan)?;
        Ok(Swapper {
            plan,
            list: plp as u32,
            region,
            dynamic,
            flow: Flow::new(pid_of(plan)),
            place: SwapPlace::over(),
            number: 0,
            begun: false,
        })
    }

    /// How many packets the frame under way still wants: those of the slots that are over when it begins; 0 from an
    /// input that ended.
    pub fn wants(&self) -> u64
        ensures value { result ≡ wants_of self.now }
        ensures answer { (c : Config) (plp : ℕ) (t : Told) (left : List Body) (frames : List NumberedView) (given : ℕ)
            → SwapperStandsFor self.now c plp t left frames given → result ≡ wants_by c plp t }
    {
        if self.begun {
            return 0;
        }
        self.region.wanted()
    }

    /// Takes the next packet, one that the frame under way wants.
    pub fn offer(&mut self, packet: &TsPacket)
        requires { 0 < wants_of self.old }
        ensures stands { (c : Config) (plp : ℕ) (t : Told) (left : List Body) (frames : List NumberedView) (given : ℕ)
            → SwapperStandsFor self.old c plp t left frames given
            → SwapperStandsFor self.new c plp (with_packet t packet.now) left frames given }
        ensures fewer { wants_of self.new + 1 ≡ wants_of self.old }
        ensures unit { has_unit self.new ≡ has_unit self.old }
        ensures fed { is_fed self.new ≡ is_fed self.old }
        ensures left { (left : List Body) → bytes_left self.new left ≡ bytes_left self.old left }
        ensures status { status_of self.new ≡ status_of self.old }
    {
        self.region.offer(self.plan, self.list, packet);
    }

    /// The input has ended: null packets follow. A second time nothing changes.
    pub fn end_input(&mut self)
        ensures stands { (c : Config) (plp : ℕ) (t : Told) (left : List Body) (frames : List NumberedView) (given : ℕ)
            → SwapperStandsFor self.old c plp t left frames given → SwapperStandsFor self.new c plp (at_end t)
            left frames given }
        ensures none { wants_of self.new ≡ 0 }
        ensures unit { has_unit self.new ≡ has_unit self.old }
        ensures fed { is_fed self.new ≡ is_fed self.old }
        ensures left { (left : List Body) → bytes_left self.new left ≡ bytes_left self.old left }
        ensures status { status_of self.new ≡ status_of self.old }
    {
        self.region.end(self.plan, self.list);
    }

    /// Begins the frame under way: it wants no more packets, it was not begun, and [`Swapper::finish`] was not called.
    pub fn frame(&mut self, frame: &PoolFrame<'_>)
        requires can { CanBeSent (status_of self.old).network frame.now }
        requires held { ∥ HasRecord (status_of self.old).network (frame_of self.old) frame.now ∥₁ }
        requires wanted { wants_of self.old ≡ 0 }
        requires free { (status_of self.old).begun ≡ false }
        requires open { (status_of self.old).finished ≡ false }
        ensures stands { (c : Config) (plp : ℕ) (t : Told) (frames : List NumberedView) (given : ℕ) (view : RecordView)
            → IsHeld c (frame_of self.old) view frame.now → SwapperStandsFor self.old c plp t [] frames given
            → SwapperStandsFor self.new c plp t (left_in self.new frame.now)
            (frames ++ record { number = frame_of self.old; view = view } ∷ [])
            given }
        // It has no more to give than its packets have bytes, and what was left.
        ensures more { (c : Config) (plp : ℕ) (t : Told) (frames : List NumberedView) (given : ℕ) (view : RecordView)
            → IsHeld c (frame_of self.old) view frame.now → SwapperStandsFor self.old c plp t [] frames given
            → (input : List (List ℕ)) → Continues t input
            → bytes_left self.new (left_in self.new frame.now) ≤ bytes_left self.old []
            + packet_bound * length (view_bodies c (frame_of self.old) (swapped_view c plp input (frame_of self.old)
            view)) }
        ensures wants { wants_of self.new ≡ 0 }
        ensures status { status_of self.new ≡ record (status_of self.old) { begun = true } }
    {
        told_law();
        swapped_law();
        self.plan.rules_law();
        self.region.advance(self.plan, self.list);
        self.dynamic.write(
            self.plan,
            self.number,
            &frame.dynamic,
            self.list as usize,
            self.region.count,
        );
        let (plan, list, number, sends) = (self.plan, self.list, self.number, self.region.sends);
        let dynamic = &self.dynamic;
        let region = &self.region;
        let swapped = SwappedFrame {
            frame,
            dynamic: &dynamic.bits,
            list,
            region: &region.blocks,
            sends,
        };
        let mut source = SwapSource::new(SwapPlace::first(plan, number), &swapped);
        self.flow.begin(&swapped, plan, &mut source);
        self.place = source.place;
        self.begun = true;
    }

    /// Gives units of the frames begun, to the front of these bytes, as long as one is complete and there is room: how
    /// many bytes, and whether it was the room that ended. The frame is the one under way, which was begun.
    pub fn give(&mut self, frame: &PoolFrame<'_>, out: &mut [u8]) -> (usize, bool)
        requires can { CanBeSent (status_of self.old).network frame.now }
        requires begun { (status_of self.old).begun ≡ true }
        requires room { SIZE ≤ length out.old }
        ensures gives { GivesUnits self.old self.new frame.now result.1 (take result.0 out.new) }
        ensures count { result.0 ≤ length out.old }
        ensures full { result.1 ≡ true → length out.old < result.0 + SIZE }
        ensures size { length out.new ≡ length out.old }
        ensures idle { result.1 ≡ false → has_unit self.new ≡ false }
        ensures wants { wants_of self.new ≡ 0 }
        ensures status { status_of self.new ≡ status_of self.old }
    {
        let (plan, list, sends, place) = (self.plan, self.list, self.region.sends, self.place);
        let dynamic = &self.dynamic;
        let region = &self.region;
        let swapped = SwappedFrame {
            frame,
            dynamic: &dynamic.bits,
            list,
            region: &region.blocks,
            sends,
        };
        let mut source = SwapSource::new(place, &swapped);
        let (len, full) = self.flow.give(&swapped, plan, &mut source, out);
        self.place = source.place;
        (len, full)
    }

    /// Goes on to the next frame: the frame under way wants no more packets, its number is below
    /// `plp_config::MOST_FRAMES`, and if it was begun, all its complete units were taken.
    pub fn pass(&mut self)
        requires wanted { wants_of self.old ≡ 0 }
        requires early { frame_of self.old < MOST_FRAMES }
        requires given { (status_of self.old).begun ≡ true → has_unit self.old ≡ false }
        ensures stands { (c : Config) (plp : ℕ) (t : Told) (left : List Body) (frames : List NumberedView) (given : ℕ)
            → SwapperStandsFor self.old c plp t left frames given → SwapperStandsFor self.new c plp (in_next t)
            left frames given }
        ensures unit { has_unit self.new ≡ has_unit self.old }
        ensures fed { is_fed self.new ≡ is_fed self.old }
        ensures left { (left : List Body) → bytes_left self.new left ≡ bytes_left self.old left }
        ensures status { status_of self.new ≡ record (status_of self.old) {
          frame = frame_of self.old + 1;
          begun = false;
        } }
    {
        pass_region(&mut self.region, self.plan, self.list, self.begun);
        self.begun = false;
        self.number += 1;
    }

    /// No more frames come: all complete units of the frames begun were taken.
    pub fn finish(&mut self)
        requires given { has_unit self.old ≡ false }
        requires open { (status_of self.old).finished ≡ false }
        ensures stands { (c : Config) (plp : ℕ) (t : Told) (left : List Body) (frames : List NumberedView) (given : ℕ)
            → SwapperStandsFor self.old c plp t left frames given → SwapperStandsFor self.new c plp t
            left frames given }
        ensures fed { is_fed self.new ≡ true }
        ensures left { (left : List Body) → bytes_left self.new left ≡ bytes_left self.old left }
        ensures wants { wants_of self.new ≡ wants_of self.old }
        ensures status { status_of self.new ≡ record (status_of self.old) { finished = true } }
    {
        self.flow.finish();
    }

    /// Gives the next unit behind the end, if one is left. Else nothing changes.
    pub fn rest(&mut self, out: &mut [u8; SIZE]) -> bool
        requires finished { (status_of self.old).finished ≡ true }
        requires fed { is_fed self.old ≡ true }
        ensures unit { result ≡ true → (c : Config) (plp : ℕ) (t : Told) (frames : List NumberedView) (given : ℕ)
            → SwapperStandsFor self.old c plp t [] frames given → (input : List (List ℕ)) → Continues t input
            → slice_get (pipe c.pid (remade_packets c (swapped c plp input frames))) given ≡ Some out.new }
        ensures stands { result ≡ true → (c : Config) (plp : ℕ) (t : Told) (frames : List NumberedView) (given : ℕ)
            → SwapperStandsFor self.old c plp t [] frames given → SwapperStandsFor self.new c plp t []
            frames (given + 1) }
        ensures none { result ≡ false → (c : Config) (plp : ℕ) (t : Told) (frames : List NumberedView) (given : ℕ)
            → SwapperStandsFor self.old c plp t [] frames given → (input : List (List ℕ)) → Continues t input
            → length (pipe c.pid (remade_packets c (swapped c plp input frames))) ≡ given }
        ensures kept { result ≡ false → (c : Config) (plp : ℕ) (t : Told) (frames : List NumberedView) (given : ℕ)
            → SwapperStandsFor self.old c plp t [] frames given → SwapperStandsFor self.new c plp t [] frames given }
        ensures stays { result ≡ false → out.new ≡ out.old }
        ensures is { result ≡ has_unit self.old }
        ensures less { result ≡ true → bytes_left self.new [] < bytes_left self.old [] }
        ensures fed { is_fed self.new ≡ true }
        ensures wants { wants_of self.new ≡ wants_of self.old }
        ensures status { status_of self.new ≡ status_of self.old }
    {
        self.flow.rest(out)
    }
}
