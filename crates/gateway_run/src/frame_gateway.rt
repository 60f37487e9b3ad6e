// A gateway between files.
ghost use Rattle.std.specs.Prelude.{◌≡◌, ◌<◌, ◌≤◌, ◌+◌, ◌^◌, ◌++◌, ◌∷◌, ◌↔◌, List, [], length, true, false, Some, None};
ghost use Rattle.plp_config.specs.declared.config.Config.{Config};
ghost use Rattle.plp_config.specs.declared.moment.TheConstants.{MOST_FRAMES};
ghost use Rattle.common_plp.specs.Inputs.{place_of, input_count};
ghost use Rattle.common_plp.specs.Sharing.{Sharing};
ghost use Rattle.gateway_core.specs.Events.{Event, Offered, Ended, Begun, Gave, Finished, finished};
ghost use Rattle.gateway_core.specs.StandsFor.{Status};
ghost use Rattle.gateway_run.specs.Holds.{AreComplete, AreAll};
ghost use Rattle.gateway_run.specs.Inputs.{IsLastBy};
ghost use Rattle.gateway_run.specs.Seen.{Seen, Asks, IsIdle, IsNext};

use plp_config::Plan;
use ts_packet::{SIZE, TsPacket};

/// A gateway that is told the packets of its inputs, and begins frame by frame: either each input goes in its own PLP,
/// or those of a group share a common one. The plan that it is handed is that of its opening.
pub trait FrameGateway {
    /// How inputs belong to PLPs.
    ghost sharing: { Sharing };

    /// What is seen of it, by its configuration.
    ghost seen: { Self → Config → Seen };

    /// What is seen of it whatever its configuration.
    ghost status: { Self → Status };

    /// The place of the PLP of an input.
    fn place_of(&self, plan: &Plan, input: usize) -> usize
        requires { input < input_count sharing plan.now }
        ensures place { result ≡ place_of sharing plan.now input }
        ensures inside { result < length plan.now.plps }
        ensures input { input ≤ result };

    /// The input of which the next frame wants a packet first, `None` if it wants no more.
    fn look(&mut self, plan: &Plan) -> Option<usize>
        requires is_of { (seen self.old plan.now).is_of }
        requires idle { IsIdle (status self.old) }
        ensures asks { Asks sharing plan.now (seen self.new plan.now) result }
        ensures status { status self.new ≡ status self.old }
        ensures stands { (events : List Event) → (seen self.old plan.now).stands events
            → (seen self.new plan.now).stands events };

    /// How many packets the next frame still wants of the input that it asks for.
    fn wants(&self, plan: &Plan, input: usize) -> u64
        requires { Asks sharing plan.now (seen self.now plan.now) (Some input) }
        ensures { result ≡ (seen self.now plan.now).wants input };

    /// Takes the packet that it asks for, and looks for the next.
    fn offer(&mut self, plan: &Plan, input: usize, packet: &TsPacket) -> Option<usize>
        requires asks { Asks sharing plan.now (seen self.old plan.now) (Some input) }
        requires idle { IsIdle (status self.old) }
        ensures asks { Asks sharing plan.now (seen self.new plan.now) result }
        ensures status { status self.new ≡ status self.old }
        ensures stands { (events : List Event) → (seen self.old plan.now).stands events
            → (seen self.new plan.now).stands (events ++ Offered (place_of sharing plan.now input) packet.now ∷ []) };

    /// The input that it asks for has ended: null packets follow. It looks for the next.
    fn end_input(&mut self, plan: &Plan, input: usize) -> Option<usize>
        requires asks { Asks sharing plan.now (seen self.old plan.now) (Some input) }
        requires idle { IsIdle (status self.old) }
        ensures asks { Asks sharing plan.now (seen self.new plan.now) result }
        ensures status { status self.new ≡ status self.old }
        ensures stands { (events : List Event) → (seen self.old plan.now).stands events
            → (seen self.new plan.now).stands (events ++ Ended (place_of sharing plan.now input) ∷ []) };

    /// Whether all inputs ended and as many frames were begun as what goes in the PLPs needs.
    fn last(&self, plan: &Plan) -> bool
        requires { Asks sharing plan.now (seen self.now plan.now) None }
        ensures { (events : List Event) → (seen self.now plan.now).stands events
            → (result ≡ true) ↔ IsLastBy sharing plan.now events };

    /// Begins the next frame, which wants no more packets.
    fn begin_frame(&mut self, plan: &Plan)
        requires asks { Asks sharing plan.now (seen self.old plan.now) None }
        requires idle { IsIdle (status self.old) }
        requires early { (status self.old).frame < MOST_FRAMES }
        ensures is_of { (seen self.new plan.now).is_of }
        ensures frame { (status self.new).frame ≡ (status self.old).frame + 1 }
        ensures finished { (status self.new).finished ≡ (status self.old).finished }
        ensures more { (status self.new).left ≤ (status self.old).left + 2 ^ 32 }
        ensures stands { (events : List Event) → (seen self.old plan.now).stands events
            → (seen self.new plan.now).stands (events ++ Begun ∷ []) };

    /// Gives the next unit, if one is complete, or, behind the last frame, is left. Else `out` stays.
    fn next_ts(&mut self, plan: &Plan, out: &mut [u8; SIZE]) -> bool
        requires is_of { (seen self.old plan.now).is_of }
        ensures is_of { (seen self.new plan.now).is_of }
        ensures unit { result ≡ true → (events : List Event) → (seen self.old plan.now).stands events
            → IsNext sharing plan.now events out.new }
        ensures gave { result ≡ true → (events : List Event) → (seen self.old plan.now).stands events
            → (seen self.new plan.now).stands (events ++ Gave ∷ []) }
        ensures still { result ≡ false → (events : List Event) → (seen self.old plan.now).stands events
            → (seen self.new plan.now).stands events }
        ensures none { result ≡ false → (status self.new).unit ≡ false }
        ensures less { result ≡ true → (status self.new).left < (status self.old).left }
        ensures kept { result ≡ false → (status self.new).left ≡ (status self.old).left }
        ensures complete { result ≡ false → (events : List Event) → (seen self.old plan.now).stands events
            → finished events ≡ false → AreComplete sharing plan.now events }
        ensures all { result ≡ false → (events : List Event) → (seen self.old plan.now).stands events
            → finished events ≡ true → AreAll sharing plan.now events }
        ensures finished { (events : List Event) → (seen self.old plan.now).stands events
            → finished events ≡ (status self.old).finished }
        ensures frame { (status self.new).frame ≡ (status self.old).frame }
        ensures end { (status self.new).finished ≡ (status self.old).finished };

    /// No more frames come: the rest of the units can be taken.
    fn finish(&mut self, plan: &Plan)
        requires is_of { (seen self.old plan.now).is_of }
        ensures is_of { (seen self.new plan.now).is_of }
        ensures frame { (status self.new).frame ≡ (status self.old).frame }
        ensures left { (status self.new).left ≡ (status self.old).left }
        ensures stands { (events : List Event) → (seen self.old plan.now).stands events
            → (seen self.new plan.now).stands (events ++ Finished ∷ []) };
}
