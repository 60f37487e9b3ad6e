// The steps of a gateway between files.
ghost use Rattle.std.specs.Prelude.{◌≡◌, ◌<◌, ◌≤◌, ◌++◌, ◌∷◌, ◌↔◌, List, [], length, take, IsTrue, Some};
ghost use Rattle.plp_config.specs.declared.moment.TheConstants.{MOST_FRAMES};
ghost use Rattle.common_plp.specs.Inputs.{place_of};
ghost use Rattle.file_run.specs.Events.{Event, Fed, Ended, Gave};
ghost use Rattle.gateway_run.specs.Holds.{Holds};
ghost use Rattle.gateway_run.specs.Phases.{IsGiving, bad_by, frame_read, left_by};
ghost use Rattle.gateway_run.specs.Ready.{IsReady, place_by};
ghost use Rattle.gateway_run.specs.Seen.{Asks};
ghost use Rattle.gateway_run.specs.declared.place.Place.{Place};
ghost use Rattle.gateway_run.specs.declared.place.Phase.TheVariants.{Wants, Begins};

use crate::frame_gateway::FrameGateway;
use crate::place::{Phase, Place};
use crate::stop::{GatewayRan, GatewayStop};
use common_plp::split_law;
use file_run::events_law;
use gateway_core::{front_law, not_yet_last_law};
use plp_config::{MOST_FRAMES, Plan};
use ts_packet::{SIZE, SYNC, TsPacket};

// The place of a gateway that asks for this input, or for none.
fn place_by(asked: Option<usize>) -> Place
    ensures { result ≡ place_by asked }
{
    match asked {
        Some(input) => Place {
            input,
            phase: Phase::Wants,
        },
        None => Place {
            input: 0,
            phase: Phase::Begins,
        },
    }
}

// The place of a phase in which no input is looked at.
fn place_in(phase: Phase) -> Place
    ensures { result ≡ record { input = 0; phase = phase } }
{
    Place { input: 0, phase }
}

// The next packet of the input that is asked for is bad.
fn bad<G: FrameGateway>(gateway: &G, plan: &Plan, input: usize, frames: u64) -> Place
    requires asks { Asks G.sharing plan.now (G.seen gateway.now plan.now) (Some input) }
    requires early { frames ≤ MOST_FRAMES }
    ensures { result ≡ bad_by plan.now (place_of G.sharing plan.now input) input frames
        ((G.seen gateway.now plan.now).wants input) }
{
    let plp = gateway.place_of(plan, input);
    let ticks = u64::from(plan.config().ticks);
    let slots = plan.slots_by(plp, frames * ticks);
    place_in(Phase::Stopped(GatewayStop::Bad {
        input: input as u8,
        packet: slots.saturating_sub(gateway.wants(plan, input)),
    }))
}

// Takes the packet at the front of the bytes of the input that is looked at, or stops at it.
fn take_packet<G: FrameGateway>(
    gateway: &mut G,
    plan: &Plan,
    place: Place,
    ran: GatewayRan,
    bytes: &[u8],
) -> Place
    requires ready { IsReady G.sharing plan.now (G.seen gateway.old plan.now) (G.status gateway.old) place ran }
    requires wants { place.phase ≡ Wants }
    requires long { SIZE ≤ length bytes.now }
    ensures ready { IsReady G.sharing plan.now (G.seen gateway.new plan.now) (G.status gateway.new) result ran }
    ensures read { frame_read result.phase ran.frames ≡ ran.frames }
    ensures holds { (done : List Event)
        → Holds G.sharing plan.now done (G.seen gateway.old plan.now).stands place ran
        → Holds G.sharing plan.now (done ++ Fed place.input (take SIZE bytes.now) ∷ [])
        (G.seen gateway.new plan.now).stands result ran }
{
    events_law();
    let packet = TsPacket::front_of(bytes);
    if packet.as_array()[0] != SYNC {
        return bad(gateway, plan, place.input, ran.frames);
    }
    place_by(gateway.offer(plan, place.input, &packet))
}

// Whether this input is looked at.
fn looks_at(place: Place, input: usize) -> bool
    ensures { IsTrue result ↔ ((place.phase ≡ Wants) × (place.input ≡ input)) }
{
    match place.phase {
        Phase::Wants => place.input == input,
        _ => false,
    }
}

/// Takes packets from the front of the bytes of the input that is looked at, as long as it is and one waits, and stops
/// at a bad one: how many bytes.
pub fn take_packets<G: FrameGateway>(
    gateway: &mut G,
    plan: &Plan,
    place: &mut Place,
    ran: GatewayRan,
    bytes: &[u8],
) -> usize
    requires ready { IsReady G.sharing plan.now (G.seen gateway.old plan.now) (G.status gateway.old) place.old ran }
    requires wants { place.old.phase ≡ Wants }
    requires long { SIZE ≤ length bytes.now }
    ensures some { 0 < result }
    ensures few { result ≤ length bytes.now }
    ensures ready { IsReady G.sharing plan.now (G.seen gateway.new plan.now) (G.status gateway.new) place.new ran }
    ensures read { frame_read place.new.phase ran.frames ≡ ran.frames }
    ensures holds { (done : List Event)
        → Holds G.sharing plan.now done (G.seen gateway.old plan.now).stands place.old ran
        → Holds G.sharing plan.now (done ++ Fed place.old.input (take result bytes.now) ∷ [])
        (G.seen gateway.new plan.now).stands place.new ran }
{
    events_law();
    let mut now = *place;
    let mut len = 0;
    'packets: while looks_at(now, place.input) && bytes.len() - len >= SIZE {
        now = take_packet(gateway, plan, now, ran, &bytes[len..]);
        len += SIZE;
    }
    *place = now;
    len
}

/// The file of the input that is looked at has ended behind these bytes.
pub fn end_input<G: FrameGateway>(
    gateway: &mut G,
    plan: &Plan,
    place: Place,
    ran: GatewayRan,
    bytes: &[u8],
) -> Place
    requires ready { IsReady G.sharing plan.now (G.seen gateway.old plan.now) (G.status gateway.old) place ran }
    requires wants { place.phase ≡ Wants }
    requires short { length bytes.now < SIZE }
    ensures ready { IsReady G.sharing plan.now (G.seen gateway.new plan.now) (G.status gateway.new) result ran }
    ensures read { frame_read result.phase ran.frames ≡ ran.frames }
    ensures holds { (done : List Event)
        → Holds G.sharing plan.now done (G.seen gateway.old plan.now).stands place ran
        → Holds G.sharing plan.now (done ++ Ended place.input bytes.now ∷ []) (G.seen gateway.new plan.now).stands
        result ran }
{
    events_law();
    let rest = bytes.len();
    if rest > 0 {
        return bad(gateway, plan, place.input, ran.frames);
    }
    place_by(gateway.end_input(plan, place.input))
}

/// Begins the next frame, or the rest if no frame comes.
pub fn begin<G: FrameGateway>(
    gateway: &mut G,
    plan: &Plan,
    place: Place,
    ran: &mut GatewayRan,
) -> Place
    requires ready { IsReady G.sharing plan.now (G.seen gateway.old plan.now) (G.status gateway.old) place ran.old }
    requires begins { place.phase ≡ Begins }
    ensures ready { IsReady G.sharing plan.now (G.seen gateway.new plan.now) (G.status gateway.new) result ran.new }
    ensures left { left_by (G.status gateway.new).left result.phase ran.new.frames
        < left_by (G.status gateway.old).left place.phase ran.old.frames }
    ensures read { frame_read result.phase ran.new.frames ≡ ran.old.frames }
    ensures holds { (done : List Event)
        → Holds G.sharing plan.now done (G.seen gateway.old plan.now).stands place ran.old
        → Holds G.sharing plan.now done (G.seen gateway.new plan.now).stands result ran.new }
{
    not_yet_last_law();
    front_law();
    split_law();
    plan.rules_law();
    if gateway.last(plan) {
        gateway.finish(plan);
        return place_in(Phase::Rests);
    }
    if ran.frames == MOST_FRAMES {
        return place_in(Phase::Stopped(GatewayStop::TooManyFrames));
    }
    gateway.begin_frame(plan);
    ran.frames += 1;
    place_in(Phase::Gives)
}

// Gives the next unit, or goes on behind the units: how many bytes.
fn go_on<G: FrameGateway>(
    gateway: &mut G,
    plan: &Plan,
    place: &mut Place,
    ran: &mut GatewayRan,
    unit: &mut [u8; SIZE],
) -> usize
    requires ready { IsReady G.sharing plan.now (G.seen gateway.old plan.now) (G.status gateway.old) place.old ran.old }
    requires gives { IsGiving place.old.phase }
    ensures count { result ≤ SIZE }
    ensures whole { length unit.new ≡ SIZE }
    ensures on { 0 < result → IsGiving place.new.phase }
    ensures ready { IsReady G.sharing plan.now (G.seen gateway.new plan.now) (G.status gateway.new) place.new ran.new }
    ensures left { left_by (G.status gateway.new).left place.new.phase ran.new.frames
        < left_by (G.status gateway.old).left place.old.phase ran.old.frames }
    ensures read { frame_read place.old.phase ran.old.frames ≤ frame_read place.new.phase ran.new.frames }
    ensures holds { (done : List Event)
        → Holds G.sharing plan.now done (G.seen gateway.old plan.now).stands place.old ran.old
        → Holds G.sharing plan.now (done ++ Gave (take result unit.new) ∷ []) (G.seen gateway.new plan.now).stands
        place.new ran.new }
{
    events_law();
    if gateway.next_ts(plan, unit) {
        ran.units += 1;
        return SIZE;
    }
    if let Phase::Rests = place.phase {
        *place = place_in(Phase::Done);
        return 0;
    }
    *place = place_by(gateway.look(plan));
    0
}

// The same to the front of these bytes.
fn go_on_front<G: FrameGateway>(
    gateway: &mut G,
    plan: &Plan,
    place: &mut Place,
    ran: &mut GatewayRan,
    out: &mut [u8],
) -> usize
    requires ready { IsReady G.sharing plan.now (G.seen gateway.old plan.now) (G.status gateway.old) place.old ran.old }
    requires gives { IsGiving place.old.phase }
    requires room { SIZE ≤ length out.old }
    ensures count { result ≤ SIZE }
    ensures size { length out.new ≡ length out.old }
    ensures on { 0 < result → IsGiving place.new.phase }
    ensures ready { IsReady G.sharing plan.now (G.seen gateway.new plan.now) (G.status gateway.new) place.new ran.new }
    ensures left { left_by (G.status gateway.new).left place.new.phase ran.new.frames
        < left_by (G.status gateway.old).left place.old.phase ran.old.frames }
    ensures read { frame_read place.old.phase ran.old.frames ≤ frame_read place.new.phase ran.new.frames }
    ensures holds { (done : List Event)
        → Holds G.sharing plan.now done (G.seen gateway.old plan.now).stands place.old ran.old
        → Holds G.sharing plan.now (done ++ Gave (take result out.new) ∷ []) (G.seen gateway.new plan.now).stands
        place.new ran.new }
{
    go_on(gateway, plan, place, ran, out.first_chunk_mut().unwrap())
}

/// Gives units to the front of these bytes, as long as one comes and there is room, and goes on behind the units: how
/// many bytes.
pub fn give<G: FrameGateway>(
    gateway: &mut G,
    plan: &Plan,
    place: &mut Place,
    ran: &mut GatewayRan,
    out: &mut [u8],
) -> usize
    requires ready { IsReady G.sharing plan.now (G.seen gateway.old plan.now) (G.status gateway.old) place.old ran.old }
    requires gives { IsGiving place.old.phase }
    requires room { SIZE ≤ length out.old }
    ensures count { result ≤ length out.old }
    ensures ready { IsReady G.sharing plan.now (G.seen gateway.new plan.now) (G.status gateway.new) place.new ran.new }
    ensures left { left_by (G.status gateway.new).left place.new.phase ran.new.frames
        < left_by (G.status gateway.old).left place.old.phase ran.old.frames }
    ensures read { frame_read place.old.phase ran.old.frames ≤ frame_read place.new.phase ran.new.frames }
    ensures holds { (done : List Event)
        → Holds G.sharing plan.now done (G.seen gateway.old plan.now).stands place.old ran.old
        → Holds G.sharing plan.now (done ++ Gave (take result out.new) ∷ []) (G.seen gateway.new plan.now).stands
        place.new ran.new }
{
    events_law();
    let mut len = 0;
    while out.len() - len >= SIZE {
        let count = go_on_front(gateway, plan, place, ran, &mut out[len..]);
        if count == 0 {
            return len;
        }
        len += count;
    }
    len
}
