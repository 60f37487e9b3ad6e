// The gateway.
ghost use Rattle.std.specs.Prelude.{◌≡◌, ◌<◌, ◌≤◌, ◌^◌, true, vec_len, length};
ghost use Rattle.linked_pool.specs.Fits.{frame_chunks};
ghost use Rattle.plp_config.specs.declared.moment.TheConstants.{MOST_FRAMES};
ghost use Rattle.scheduler.specs.Laws.{CountsFit};
ghost use Rattle.gateway_core.specs.InputsStandFor.{AreFor, AreSupplied};
ghost use Rattle.gateway_core.specs.Left.{early_of};
ghost use Rattle.frame_writer.specs.declared.step.FrameStep.TheVariants.{Over};

use crate::frame::Frame;
use crate::input::Input;
use crate::inputs::{cut, end, offer, open_inputs, wanted};
use crate::run_length::frame_count;
use bit_slice::OutOfMemory;
use frame_writer::{Flow, Signalling};
use mode_adapt::early_fits_law;
use plp_config::Plan;
use std::alloc::Global;
use ts_packet::{SIZE, TsPacket};

/// Makes the T2-MI stream of a network (TS 102 773) from the packets of its inputs: offer the packets that the next
/// frame wants, begin it, take the units; behind the last frame finish, and take the rest. A PLP is named by its place
/// in the configuration, from 0 on.
#[derive(Drop)]
pub struct Gateway<'p> {
    plan: &'p Plan,
    inputs: Vec<Input>,
    signalling: Signalling,
    // How many frames were begun, and the last of them.
    frames: u64,
    frame: Frame,
    flow: Flow,
    ghost whole: { vec_len inputs ≡ length plan.now.plps },
    ghost most: { AreFor inputs.items plan.now },
    ghost early: { frames ≤ MOST_FRAMES },
    ghost lists: { length frame.blocks.lists ≡ length plan.now.plps },
    ghost chunks: { frame.blocks.opened ≡ frame_chunks plan.now },
    ghost over: { flow.dry ≡ true → frame.step ≡ Over },
    ghost fit: { CountsFit plan.now frame.counts.items },
    ghost supplied: { ∥ AreSupplied plan.now frames inputs.items (early_of plan.now frame) ∥₁ },
}

// The PID of the T2-MI stream.
fn pid_of(plan: &Plan) -> u16
    ensures value { result ≡ plan.now.pid }
    ensures small { result < 2 ^ 13 }
{
    plan.config().pid
}

impl<'p> Gateway<'p> {
    ghost use Rattle.std.specs.Prelude.{◌≡◌, ◌≢◌, ◌<◌, ◌≤◌, ◌+◌, ◌^◌, ◌++◌, ◌∷◌, ◌↔◌, ℕ, List, [], true, false, length};
    ghost use Rattle.std.specs.Prelude.{Some, IfOk, slice_get};
    ghost use Rattle.plp_config.specs.declared.config.Config.{Config};
    ghost use Rattle.t2mi_stream.specs.Complete.{complete_units};
    ghost use Rattle.t2mi_stream.specs.Pipe.{pipe};
    ghost use Rattle.gateway_core.specs.Events.{Event, Offered, Ended, Begun, Gave, Finished, begun, given, finished};
    ghost use Rattle.gateway_core.specs.InputsStandFor.{AllContinue};
    ghost use Rattle.gateway_core.specs.Packets.{front_packets};
    ghost use Rattle.gateway_core.specs.StandsFor.{GatewayStandsFor, plps_of, wants_of, frame_of, has_unit, bytes_left};
    ghost use Rattle.gateway_core.specs.StandsFor.{has_finished, status_of, new_status, IsLast, wants_by};

    /// A gateway to which nothing was offered, for a plan. It takes all the memory that it needs.
    pub fn open(alloc: Global, plan: &'p Plan) -> Result<Gateway<'p>, OutOfMemory>
        ensures stands { IfOk result (λ g. GatewayStandsFor g plan.now []) }
        ensures status { IfOk result (λ g. status_of g ≡ new_status (length plan.now.plps)) }
    {
        Ok(Gateway {
            plan,
            inputs: open_inputs(alloc, plan)?,
            signalling: Signalling::open(alloc, plan)?,
            frames: 0,
            frame: Frame::open(alloc, plan)?,
            flow: Flow::new(pid_of(plan)),
        })
    }

    /// How many packets the next frame still wants from the input of a PLP: those of the slots that are over when it
    /// begins, 0 from an input that ended.
    pub fn wants(&self, plp: usize) -> u64
        requires { plp < plps_of self.now }
        ensures value { result ≡ wants_of self.now plp }
        ensures answer { (c : Config) (events : List Event) → GatewayStandsFor self.now c events
            → result ≡ wants_by c events plp }
    {
        wanted(&self.inputs, plp)
    }

    /// Takes the next packet of the input of a PLP, one that the next frame wants, once all complete units were taken.
    pub fn offer(&mut self, plp: usize, packet: &TsPacket)
        requires place { plp < plps_of self.old }
        requires wanted { 0 < wants_of self.old plp }
        requires given { has_unit self.old ≡ false }
        ensures stands { (c : Config) (events : List Event) → GatewayStandsFor self.old c events
            → GatewayStandsFor self.new c (events ++ Offered plp packet.now ∷ []) }
        ensures fewer { wants_of self.new plp + 1 ≡ wants_of self.old plp }
        ensures others { (other : ℕ) → other ≢ plp → wants_of self.new other ≡ wants_of self.old other }
        ensures status { status_of self.new ≡ status_of self.old }
    {
        early_fits_law();
        self.plan.rules_law();
        offer(&mut self.inputs, &mut self.frame.blocks, plp, packet);
    }

    /// The input of a PLP has ended: null packets follow. A second time nothing changes.
    pub fn end_input(&mut self, plp: usize)
        requires { plp < plps_of self.old }
        ensures stands { (c : Config) (events : List Event) → GatewayStandsFor self.old c events
            → GatewayStandsFor self.new c (events ++ Ended plp ∷ []) }
        ensures none { wants_of self.new plp ≡ 0 }
        ensures others { (other : ℕ) → other ≢ plp → wants_of self.new other ≡ wants_of self.old other }
        ensures status { status_of self.new ≡ status_of self.old }
    {
        end(&mut self.inputs, plp);
    }

    /// Begins the next frame, which wants no more packets and has a number below `plp_config::MOST_FRAMES`, once all
    /// complete units were taken and before [`Gateway::finish`].
    pub fn begin_frame(&mut self)
        requires wanted { (plp : ℕ) → plp < plps_of self.old → wants_of self.old plp ≡ 0 }
        requires given { has_unit self.old ≡ false }
        requires early { frame_of self.old < MOST_FRAMES }
        requires open { has_finished self.old ≡ false }
        ensures stands { (c : Config) (events : List Event) → GatewayStandsFor self.old c events
            → GatewayStandsFor self.new c (events ++ Begun ∷ []) }
        ensures frame { frame_of self.new ≡ frame_of self.old + 1 }
        ensures status { status_of self.new ≡ record (status_of self.old) {
          frame = frame_of self.new;
          unit = has_unit self.new;
          left = bytes_left self.new;
        } }
        ensures more { bytes_left self.new ≤ bytes_left self.old + 2 ^ 32 }
    {
        self.plan.rules_law();
        cut(
            self.plan,
            &mut self.inputs,
            &mut self.frame.blocks,
            self.frames,
            &mut self.frame.counts,
        );
        self.frame.begin(self.plan, self.frames);
        self.frames += 1;
        self.flow
            .begin(&self.signalling, self.plan, &mut self.frame);
    }

    /// Gives the next unit of the frames begun, a transport packet, if it is complete: 184 bytes wait. After
    /// [`Gateway::finish`] it gives also the rest. Else `out` stays.
    pub fn next_ts(&mut self, out: &mut [u8; SIZE]) -> bool
        ensures is { result ≡ has_unit self.old }
        // Whatever packets follow, the unit is the next one of all.
        ensures unit { result ≡ true → (c : Config) (events : List Event) → GatewayStandsFor self.old c events
            → (inputs : ℕ → List (List ℕ)) → AllContinue c events inputs
            → (more : List (List ℕ)) → (finished events ≡ true → more ≡ [])
            → slice_get (pipe c.pid (front_packets c inputs (begun events) ++ more)) (given events) ≡ Some out.new }
        ensures stands { result ≡ true → (c : Config) (events : List Event) → GatewayStandsFor self.old c events
            → GatewayStandsFor self.new c (events ++ Gave ∷ []) }
        ensures still { result ≡ false → (c : Config) (events : List Event) → GatewayStandsFor self.old c events
            → GatewayStandsFor self.new c events }
        ensures stays { result ≡ false → (has_unit self.new ≡ false) × (out.new ≡ out.old) }
        // So a loop that takes units ends.
        ensures less { result ≡ true → bytes_left self.new < bytes_left self.old }
        ensures kept { result ≡ false → bytes_left self.new ≡ bytes_left self.old }
        // Before the end a unit of the frames begun is given as soon as it is complete, and no other.
        ensures complete { (c : Config) (events : List Event) → GatewayStandsFor self.old c events
            → finished events ≡ false
            → (inputs : ℕ → List (List ℕ)) → AllContinue c events inputs
            → (result ≡ true) ↔ (given events < length (complete_units c.pid (front_packets c inputs (begun events)))) }
        ensures caught_up { result ≡ false → (c : Config) (events : List Event) → GatewayStandsFor self.old c events
            → finished events ≡ false → (inputs : ℕ → List (List ℕ)) → AllContinue c events inputs
            → given events ≡ length (complete_units c.pid (front_packets c inputs (begun events))) }
        // After the end none is left out.
        ensures rest { (c : Config) (events : List Event) → GatewayStandsFor self.old c events → finished events ≡ true
            → (inputs : ℕ → List (List ℕ)) → AllContinue c events inputs
            → (result ≡ true) ↔ (given events < length (pipe c.pid (front_packets c inputs (begun events)))) }
        ensures none { result ≡ false → (c : Config) (events : List Event) → GatewayStandsFor self.old c events
            → finished events ≡ true → (inputs : ℕ → List (List ℕ)) → AllContinue c events inputs
            → length (pipe c.pid (front_packets c inputs (begun events))) ≡ given events }
        ensures wants { (plp : ℕ) → wants_of self.new plp ≡ wants_of self.old plp }
        ensures status { status_of self.new ≡ record (status_of self.old) {
          unit = has_unit self.new;
          left = bytes_left self.new;
        } }
    {
        self.flow
            .next(&self.signalling, self.plan, &mut self.frame, out)
    }

    /// Whether all inputs ended and as many frames were begun as their packets need.
    pub fn last(&self) -> bool
        ensures { (c : Config) (events : List Event) → GatewayStandsFor self.now c events → (result ≡ true)
            ↔ IsLast c events }
    {
        match frame_count(self.plan, &self.inputs) {
            None => false,
            Some(frames) => frames == u128::from(self.frames),
        }
    }

    /// No more frames come: the rest of the units can be taken.
    pub fn finish(&mut self)
        ensures stands { (c : Config) (events : List Event) → GatewayStandsFor self.old c events
            → GatewayStandsFor self.new c (events ++ Finished ∷ []) }
        ensures wants { (plp : ℕ) → wants_of self.new plp ≡ wants_of self.old plp }
        ensures status { status_of self.new ≡ record (status_of self.old) {
          unit = has_unit self.new;
          finished = true;
        } }
    {
        self.flow.finish();
    }
}
