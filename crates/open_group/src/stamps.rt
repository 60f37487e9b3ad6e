// The timestamps of a group.
ghost use Rattle.std.specs.Prelude.{◌≡◌};
ghost use Rattle.frame_groups.specs.Tally.{is_unlike};

use t2mi_packet::{Body, Packet, Stamp};

/// What is held of timestamps.
#[derive(Clone, Copy, Debug, PartialEq, Eq)]
pub struct HeldStamps {
    /// The first timestamp that came.
    pub first: Option<Stamp>,
    /// The first one that tells another bandwidth or moment.
    pub unlike: Option<Stamp>,
}

// Whether a timestamp tells another bandwidth or moment. utco decides nothing.
fn is_unlike(first: Stamp, stamp: Stamp) -> bool
    ensures { result ≡ is_unlike first stamp }
{
    !(stamp.bw == first.bw
        && stamp.seconds == first.seconds
        && stamp.subseconds == first.subseconds)
}

impl HeldStamps {
    ghost use Rattle.std.specs.Prelude.{◌≡◌, ◌∷◌, [], None};
    ghost use Rattle.frame_groups.specs.Carried.{stamps_of};
    ghost use Rattle.open_group.specs.HoldsStamps.{AddsStamps};

    /// No timestamps.
    pub const NONE: HeldStamps = HeldStamps {
        first: None,
        unlike: None,
    };

    fn add_stamp(&mut self, stamp: Stamp)
        ensures { AddsStamps self.old self.new (stamp ∷ []) }
    {
        match self.first {
            None => self.first = Some(stamp),
            Some(first) => {
                if self.unlike.is_none() && is_unlike(first, stamp) {
                    self.unlike = Some(stamp);
                }
            }
        }
    }

    /// Adds the timestamp of a packet, if it carries one.
    pub fn add(&mut self, packet: &Packet<'_>)
        ensures { AddsStamps self.old self.new (stamps_of (packet.now ∷ [])) }
    {
        match &packet.body {
            Body::Timestamp(stamp) => self.add_stamp(*stamp),
            Body::Block { .. } => {}
            Body::L1Current { .. } => {}
            Body::Other { .. } => {}
        }
    }
}
