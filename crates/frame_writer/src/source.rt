// Where the packets of a frame come from.
ghost use Rattle.std.specs.Prelude.{◌≡◌, true, false, ℕ, [], List};
ghost use Rattle.plp_config.specs.declared.config.Config.{Config};
ghost use Rattle.t2mi_packet.specs.declared.packet.Body.{Body};
ghost use Rattle.frame_writer.specs.Builds.{Builds};

use bit_slice::FixedBits;
use plp_config::Plan;
use t2mi_packet::LARGEST;

/// The packets of a frame that were not built yet. It may be no more than a place among them: `X` is what else tells of
/// the frame, handed in at each call.
pub trait FrameSource<X> {
    /// The number of the frame.
    ghost number: { Self → ℕ };

    /// What the packets that were not built yet carry, in order.
    ghost left: { Self → X → Config → List Body };

    /// It is of a frame of this network, with all that its packets need.
    ghost IsFor: { Self → X → Config → Type 0 };

    /// Nothing is left of it, whatever else tells of the frame.
    ghost IsOver: { Self → Type 0 };

    /// What stays as packets are built.
    ghost Kept: { Type 0 } = { Unit {0} };

    ghost kept: { Self → Config → Self.Kept };

    /// Builds the next packet, if there is one.
    fn build(
        &mut self,
        frame: &X,
        plan: &Plan,
        packet_count: u8,
        out: &mut FixedBits<LARGEST>,
    ) -> bool
        requires of { IsFor self.old frame.now plan.now }
        ensures some { result ≡ true → Builds plan.now (number self.old) packet_count (left self.old frame.now plan.now)
            (left self.new frame.now plan.now) out.new }
        ensures none { result ≡ false → left self.old frame.now plan.now ≡ [] }
        ensures over { result ≡ false → left self.new frame.now plan.now ≡ [] }
        ensures ends { result ≡ false → IsOver self.new }
        ensures stays { result ≡ false → out.new ≡ out.old }
        ensures of { IsFor self.new frame.now plan.now }
        ensures number { number self.new ≡ number self.old }
        ensures kept { kept self.new plan.now ≡ kept self.old plan.now };
}
