// Units out of the packets of frames.
ghost use Rattle.std.specs.Prelude.{◌≡◌, ◌<◌, ◌≤◌, ◌+◌, ◌&&◌, true, false, [], drop, length};
ghost use Rattle.terms.specs.Bits.{bytes_of};
ghost use Rattle.t2mi_packet.specs.declared.reading.TheConstants.{LARGEST};
ghost use Rattle.t2mi_stream.specs.PiperStandsFor.{waiting_of, is_finished};
ghost use Rattle.ts_packet.specs.declared.sizes.TheConstants.{PAYLOAD};

use crate::source::FrameSource;
use bit_slice::FixedBits;
use plp_config::Plan;
use t2mi_packet::LARGEST;
use t2mi_stream::Piper;
use ts_packet::{PAYLOAD, SIZE};

/// A piper, and the packet that it has not yet taken whole. Fewer bytes wait in the piper than a unit takes.
#[derive(Drop)]
pub struct Outlet {
    pub piper: Piper,
    packet: FixedBits<LARGEST>,
    // How many of the packet's bytes the piper took.
    at: usize,
    // How many packets were built, modulo 256.
    packet_count: u8,
    ghost within: { at ≤ length (bytes_of packet) },
    ghost room: { length (bytes_of packet) ≤ LARGEST },
    ghost few: { waiting_of piper < PAYLOAD },
    ghost end: { is_finished piper ≡ true → drop at (bytes_of packet) ≡ [] },
}

impl Outlet {
    ghost use Rattle.std.specs.Prelude.{◌≡◌, ◌<◌, ◌≤◌, ◌+◌, ◌^◌, ◌++◌, ℕ, List, [], true, false, length, nat_le};
    ghost use Rattle.std.specs.Prelude.{slice_get, Some};
    ghost use Rattle.plp_config.specs.declared.config.Config.{Config};
    ghost use Rattle.t2mi_packet.specs.declared.packet.Body.{Body};
    ghost use Rattle.t2mi_stream.specs.Complete.{complete_units};
    ghost use Rattle.t2mi_stream.specs.Pipe.{pipe};
    ghost use Rattle.frame_writer.specs.Carried.{AllGone};
    ghost use Rattle.frame_writer.specs.Flowing.{Flows, Feeds, rest_of, at_hand, bytes_bound, gives_unit};
    ghost use Rattle.frame_writer.specs.FramePackets.{packets_from};

    /// An outlet for a PID, which has taken nothing.
    pub fn new(pid: u16) -> Outlet
        requires { pid < 2 ^ 13 }
        ensures flows { (c : Config) (n : ℕ) → c.pid ≡ pid → Flows result c n [] [] 0 }
        ensures rest { rest_of result ≡ [] }
        ensures waiting { waiting_of result.piper ≡ 0 }
        ensures finished { is_finished result.piper ≡ false }
    {
        Outlet {
            piper: Piper::new(pid),
            packet: FixedBits::new(),
            at: 0,
            packet_count: 0,
        }
    }

    /// Gives the next unit, if it is complete, and after [`Outlet::finish`] also the rest. Else nothing changes.
    pub fn next(&mut self, out: &mut [u8; SIZE]) -> bool
        ensures is { result ≡ gives_unit self.old }
        ensures unit { result ≡ true → (c : Config) (n : ℕ) (left : List Body) (all : List (ℕ × Body)) (given : ℕ)
            → Flows self.old c n left all given
            → (more : List (List ℕ)) → (is_finished self.old.piper ≡ true → AllGone (rest_of self.old) left more)
            → slice_get (pipe c.pid (packets_from c 0 all ++ more)) given ≡ Some out.new }
        ensures flows { result ≡ true → (c : Config) (n : ℕ) (left : List Body) (all : List (ℕ × Body)) (given : ℕ)
            → Flows self.old c n left all given → Flows self.new c n left all (given + 1) }
        ensures stays { result ≡ false → (self.new ≡ self.old) × (out.new ≡ out.old) }
        ensures none { result ≡ false → is_finished self.old.piper ≡ true
            → (c : Config) (n : ℕ) (left : List Body) (all : List (ℕ × Body)) (given : ℕ)
            → Flows self.old c n left all given
            → AllGone (rest_of self.old) left [] → length (pipe c.pid (packets_from c 0 all)) ≡ given }
        ensures complete { result ≡ true → is_finished self.old.piper ≡ false
            → (c : Config) (n : ℕ) (left : List Body) (all : List (ℕ × Body)) (given : ℕ)
            → Flows self.old c n left all given
            → given < length (complete_units c.pid (packets_from c 0 all)) }
        ensures caught_up { result ≡ false → is_finished self.old.piper ≡ false
            → (c : Config) (n : ℕ) (left : List Body) (all : List (ℕ × Body)) (given : ℕ)
            → Flows self.old c n left all given
            → AllGone (rest_of self.old) left [] → given ≡ length (complete_units c.pid (packets_from c 0 all)) }
        ensures rest { rest_of self.old ≡ [] → rest_of self.new ≡ [] }
        ensures less { result ≡ true → (left : List Body) → bytes_bound self.new left < bytes_bound self.old left }
        ensures finished { is_finished self.new.piper ≡ is_finished self.old.piper }
    {
        if !self.has_unit() {
            return self.piper.next(out);
        }
        self.at += self.piper.pipe(&self.packet.as_bytes()[self.at..], out);
        true
    }

    /// No more packets come.
    pub fn finish(&mut self)
        requires fed { rest_of self.old ≡ [] }
        ensures flows { (c : Config) (n : ℕ) (left : List Body) (all : List (ℕ × Body)) (given : ℕ)
            → Flows self.old c n left all given → Flows self.new c n left all given }
        ensures rest { rest_of self.new ≡ rest_of self.old }
        ensures waiting { waiting_of self.new.piper ≡ waiting_of self.old.piper }
        ensures finished { is_finished self.new.piper ≡ true }
    {
        self.piper.finish();
    }

    // Whether the bytes that wait, and the rest of the packet, have those of a unit.
    fn has_unit(&self) -> bool
        ensures { result ≡ nat_le PAYLOAD (at_hand self.now) }
    {
        self.piper.waiting() + (self.packet.as_bytes().len() - self.at) >= PAYLOAD
    }

    // Feeds the rest of the packet, which does not complete a unit.
    fn feed(&mut self)
        requires going { is_finished self.old.piper ≡ false }
        requires few { at_hand self.old < PAYLOAD }
        ensures flows { (c : Config) (n : ℕ) (left : List Body) (all : List (ℕ × Body)) (given : ℕ)
            → Flows self.old c n left all given → Flows self.new c n left all given }
        ensures fed { rest_of self.new ≡ [] }
        ensures bound { (left : List Body) → bytes_bound self.new left ≡ bytes_bound self.old left }
        ensures finished { is_finished self.new.piper ≡ false }
    {
        self.at += self.piper.feed(&self.packet.as_bytes()[self.at..]);
    }

    // Builds the next packet of a frame, if there is one.
    fn build<X, S: FrameSource<X>>(&mut self, frame: &X, plan: &Plan, source: &mut S) -> bool
        requires of { S.IsFor source.old frame.now plan.now }
        requires fed { rest_of self.old ≡ [] }
        requires open { is_finished self.old.piper ≡ false }
        ensures feeds { Feeds plan.now self.old self.new (S.number source.old) (S.left source.old frame.now plan.now)
            (S.left source.new frame.now plan.now) }
        ensures fewer { result ≡ true → length (S.left source.new frame.now plan.now)
            < length (S.left source.old frame.now plan.now) }
        ensures over { result ≡ false → (rest_of self.new ≡ []) × (S.left source.new frame.now plan.now ≡ []) }
        ensures ends { result ≡ false → S.IsOver source.new }
        ensures finished { is_finished self.new.piper ≡ false }
        ensures of { S.IsFor source.new frame.now plan.now }
        ensures number { S.number source.new ≡ S.number source.old }
        ensures kept { S.kept source.new plan.now ≡ S.kept source.old plan.now }
    {
        if !source.build(frame, plan, self.packet_count, &mut self.packet) {
            return false;
        }
        self.at = 0;
        self.packet_count = self.packet_count.wrapping_add(1);
        self.piper.begin();
        true
    }

    // Builds packets of a frame until a unit is at hand or no packet is left, and answers whether no packet is left.
    fn refill<X, S: FrameSource<X>>(&mut self, frame: &X, plan: &Plan, source: &mut S) -> bool
        requires of { S.IsFor source.old frame.now plan.now }
        requires open { is_finished self.old.piper ≡ false }
        ensures feeds { Feeds plan.now self.old self.new (S.number source.old) (S.left source.old frame.now plan.now)
            (S.left source.new frame.now plan.now) }
        ensures over { result ≡ true → (rest_of self.new ≡ []) × (S.left source.new frame.now plan.now ≡ []) }
        ensures ends { result ≡ true → S.IsOver source.new }
        ensures full { result ≡ false → PAYLOAD ≤ at_hand self.new }
        ensures finished { is_finished self.new.piper ≡ false }
        ensures of { S.IsFor source.new frame.now plan.now }
        ensures number { S.number source.new ≡ S.number source.old }
        ensures kept { S.kept source.new plan.now ≡ S.kept source.old plan.now }
    {
        while !self.has_unit() {
            self.feed();
            if !self.build(frame, plan, source) {
                return true;
            }
        }
        false
    }

    /// Builds packets of a frame until a unit is at hand or no packet is left, and answers whether no packet is left.
    /// Behind the last frame that is the end.
    pub fn go_on<X, S: FrameSource<X>>(
        &mut self,
        is_last: bool,
        frame: &X,
        plan: &Plan,
        source: &mut S,
    ) -> bool
        requires of { S.IsFor source.old frame.now plan.now }
        requires open { is_finished self.old.piper ≡ false }
        ensures feeds { Feeds plan.now self.old self.new (S.number source.old) (S.left source.old frame.now plan.now)
            (S.left source.new frame.now plan.now) }
        ensures over { result ≡ true → (rest_of self.new ≡ []) × (S.left source.new frame.now plan.now ≡ []) }
        ensures ends { result ≡ true → S.IsOver source.new }
        ensures full { result ≡ false → PAYLOAD ≤ at_hand self.new }
        ensures finished { is_finished self.new.piper ≡ (result && is_last) }
        ensures of { S.IsFor source.new frame.now plan.now }
        ensures number { S.number source.new ≡ S.number source.old }
        ensures kept { S.kept source.new plan.now ≡ S.kept source.old plan.now }
    {
        if !self.refill(frame, plan, source) {
            return false;
        }
        if is_last {
            self.finish();
        }
        true
    }
}

/// An outlet with a unit at hand, unless all packets of the frames begun were fed.
#[derive(Drop)]
pub struct Flow {
    pub outlet: Outlet,
    // Whether all packets of the frames begun were fed to the piper.
    pub dry: bool,
    // Whether no more frames come.
    pub finished: bool,
    ghost full: { dry ≡ false → PAYLOAD ≤ waiting_of outlet.piper + length (drop outlet.at (bytes_of outlet.packet)) },
    ghost fed: { dry ≡ true → drop outlet.at (bytes_of outlet.packet) ≡ [] },
    ghost open: { finished ≡ false → is_finished outlet.piper ≡ false },
    ghost wet: { dry ≡ false → is_finished outlet.piper ≡ false },
    ghost drained: { finished ≡ true → dry ≡ true → is_finished outlet.piper ≡ true },
}

impl Flow {
    ghost use Rattle.std.specs.Prelude.{◌≡◌, ◌<◌, ◌≤◌, ◌+◌, ◌^◌, ◌++◌, ℕ, List, [], true, false, length, slice_get};
    ghost use Rattle.std.specs.Prelude.{Some};
    ghost use Rattle.plp_config.specs.declared.config.Config.{Config};
    ghost use Rattle.t2mi_packet.specs.declared.packet.Body.{Body};
    ghost use Rattle.t2mi_stream.specs.Complete.{complete_units};
    ghost use Rattle.t2mi_stream.specs.Pipe.{pipe};
    ghost use Rattle.frame_writer.specs.Flowing.{Flows, Feeds, bytes_bound, gives_unit};
    ghost use Rattle.frame_writer.specs.FramePackets.{packets_from};

    /// A flow of nothing, on a PID.
    pub fn new(pid: u16) -> Flow
        requires { pid < 2 ^ 13 }
        ensures flows { (c : Config) (n : ℕ) → c.pid ≡ pid → Flows result.outlet c n [] [] 0 }
        ensures unit { gives_unit result.outlet ≡ false }
        ensures finished { result.finished ≡ false }
        ensures none { bytes_bound result.outlet [] ≡ 0 }
    {
        Flow {
            outlet: Outlet::new(pid),
            dry: true,
            finished: false,
        }
    }

    /// Feeds packets of a frame until a unit is at hand, or all are fed.
    pub fn begin<X, S: FrameSource<X>>(&mut self, frame: &X, plan: &Plan, source: &mut S)
        requires of { S.IsFor source.old frame.now plan.now }
        requires open { self.old.finished ≡ false }
        ensures feeds { Feeds plan.now self.old.outlet self.new.outlet (S.number source.old)
            (S.left source.old frame.now plan.now)
            (S.left source.new frame.now plan.now) }
        ensures over { self.new.dry ≡ true → S.left source.new frame.now plan.now ≡ [] }
        ensures ends { self.new.dry ≡ true → S.IsOver source.new }
        ensures finished { self.new.finished ≡ self.old.finished }
        ensures of { S.IsFor source.new frame.now plan.now }
        ensures number { S.number source.new ≡ S.number source.old }
        ensures kept { S.kept source.new plan.now ≡ S.kept source.old plan.now }
    {
        self.dry = self.outlet.go_on(self.finished, frame, plan, source);
    }

    /// Gives the next unit, if it is complete, and after [`Flow::finish`] also the rest. Else nothing changes.
    pub fn next<X, S: FrameSource<X>>(
        &mut self,
        frame: &X,
        plan: &Plan,
        source: &mut S,
        out: &mut [u8; SIZE],
    ) -> bool
        requires of { S.IsFor source.old frame.now plan.now }
        requires over { self.old.dry ≡ true → S.left source.old frame.now plan.now ≡ [] }
        requires ends { self.old.dry ≡ true → S.IsOver source.old }
        ensures is { result ≡ gives_unit self.old.outlet }
        ensures unit { result ≡ true → (all : List (ℕ × Body)) (given : ℕ)
            → Flows self.old.outlet plan.now (S.number source.old) (S.left source.old frame.now plan.now) all given
            → (more : List (List ℕ)) → (self.old.finished ≡ true → more ≡ [])
            → slice_get (pipe plan.now.pid (packets_from plan.now 0 all ++ more)) given ≡ Some out.new }
        ensures flows { result ≡ true → (all : List (ℕ × Body)) (given : ℕ)
            → Flows self.old.outlet plan.now (S.number source.old) (S.left source.old frame.now plan.now) all given
            → Flows self.new.outlet plan.now (S.number source.new) (S.left source.new frame.now plan.now)
            all (given + 1) }
        ensures stays { result ≡ false → (self.new ≡ self.old) × (source.new ≡ source.old) × (out.new ≡ out.old) }
        ensures none { result ≡ false → self.old.finished ≡ true → (all : List (ℕ × Body)) (given : ℕ)
            → Flows self.old.outlet plan.now (S.number source.old) (S.left source.old frame.now plan.now) all given
            → length (pipe plan.now.pid (packets_from plan.now 0 all)) ≡ given }
        ensures complete { result ≡ true → self.old.finished ≡ false → (all : List (ℕ × Body)) (given : ℕ)
            → Flows self.old.outlet plan.now (S.number source.old) (S.left source.old frame.now plan.now) all given
            → given < length (complete_units plan.now.pid (packets_from plan.now 0 all)) }
        ensures caught_up { result ≡ false → self.old.finished ≡ false → (all : List (ℕ × Body)) (given : ℕ)
            → Flows self.old.outlet plan.now (S.number source.old) (S.left source.old frame.now plan.now) all given
            → given ≡ length (complete_units plan.now.pid (packets_from plan.now 0 all)) }
        ensures less { result ≡ true → bytes_bound self.new.outlet (S.left source.new frame.now plan.now)
            < bytes_bound self.old.outlet (S.left source.old frame.now plan.now) }
        ensures over { self.new.dry ≡ true → S.left source.new frame.now plan.now ≡ [] }
        ensures ends { self.new.dry ≡ true → S.IsOver source.new }
        ensures finished { self.new.finished ≡ self.old.finished }
        ensures of { S.IsFor source.new frame.now plan.now }
        ensures number { S.number source.new ≡ S.number source.old }
        ensures kept { S.kept source.new plan.now ≡ S.kept source.old plan.now }
    {
        if !self.outlet.next(out) {
            return false;
        }
        if self.dry {
            return true;
        }
        self.dry = self.outlet.go_on(self.finished, frame, plan, source);
        true
    }

    /// Gives the next unit once all packets of the frames begun were fed. Else nothing changes.
    pub fn rest(&mut self, out: &mut [u8; SIZE]) -> bool
        requires dry { self.old.dry ≡ true }
        ensures is { result ≡ gives_unit self.old.outlet }
        ensures unit { result ≡ true → (c : Config) (n : ℕ) (all : List (ℕ × Body)) (given : ℕ)
            → Flows self.old.outlet c n [] all given
            → (more : List (List ℕ)) → (self.old.finished ≡ true → more ≡ [])
            → slice_get (pipe c.pid (packets_from c 0 all ++ more)) given ≡ Some out.new }
        ensures flows { result ≡ true → (c : Config) (n : ℕ) (all : List (ℕ × Body)) (given : ℕ)
            → Flows self.old.outlet c n [] all given → Flows self.new.outlet c n [] all (given + 1) }
        ensures stays { result ≡ false → (self.new ≡ self.old) × (out.new ≡ out.old) }
        ensures none { result ≡ false → self.old.finished ≡ true → (c : Config) (n : ℕ) (all : List (ℕ × Body))
            (given : ℕ)
            → Flows self.old.outlet c n [] all given → length (pipe c.pid (packets_from c 0 all)) ≡ given }
        ensures less { result ≡ true → bytes_bound self.new.outlet [] < bytes_bound self.old.outlet [] }
        ensures finished { self.new.finished ≡ self.old.finished }
        ensures dry { self.new.dry ≡ true }
    {
        self.outlet.next(out)
    }

    /// No more frames come.
    pub fn finish(&mut self)
        ensures flows { (c : Config) (n : ℕ) (left : List Body) (all : List (ℕ × Body)) (given : ℕ)
            → Flows self.old.outlet c n left all given → Flows self.new.outlet c n left all given }
        ensures finished { self.new.finished ≡ true }
        ensures dry { self.new.dry ≡ self.old.dry }
        ensures same { (left : List Body) → bytes_bound self.new.outlet left ≡ bytes_bound self.old.outlet left }
    {
        self.finished = true;
        if self.dry {
            self.outlet.finish();
        }
    }
}
