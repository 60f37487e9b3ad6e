// Which packets the streams of a group share.
ghost use Rattle.std.specs.Prelude.{◌≡◌, ◌∷◌, ◌++◌, [], ℕ, List};
ghost use Rattle.std.specs.Option.{option_copied};
ghost use Rattle.std.specs.declared.option.Option.{Option};
ghost use Rattle.common_plp.specs.Shared.{is_packet};
ghost use Rattle.common_plp.specs.StandsFor.{seen_of, seen_shared};

use ts_packet::TsPacket;

// What was seen in a slot so far.
#[derive(Clone, Copy, Debug, PartialEq, Eq)]
pub(crate) enum Seen {
    // No stream yet.
    Nothing,
    // This packet of each stream.
    Equal(TsPacket),
    // Not one packet of all.
    Apart,
}

// Whether a stream has a packet, and not another, or none.
fn is_equal(packet: &TsPacket, other: Option<&TsPacket>) -> bool
    ensures { result ≡ is_packet packet.now (option_copied other.entry) }
{
    match other {
        Some(other) => packet.as_array() == other.as_array(),
        None => false,
    }
}

// What was seen of a slot with one stream more.
#[tactic(auto, using(crate::proofs::SeenLemmas::seen_more))]
fn seen_with(seen: &Seen, packet: Option<&TsPacket>) -> Seen
    ensures { (slot : List (Option (List ℕ))) → seen.now ≡ seen_of slot
        → result ≡ seen_of (slot ++ option_copied packet.entry ∷ []) }
{
    match (seen, packet) {
        (Seen::Nothing, Some(first)) => Seen::Equal(*first),
        (Seen::Equal(first), _) if is_equal(first, packet) => Seen::Equal(*first),
        _ => Seen::Apart,
    }
}

// The packet that was seen of each stream, if it is not null.
fn shared_by(seen: &Seen) -> Option<TsPacket>
    ensures { result ≡ seen_shared seen.now }
{
    match seen {
        Seen::Equal(packet) if !packet.is_null() => Some(*packet),
        _ => None,
    }
}

/// Tells which packets the streams of a group share, slot by slot: [`see`](Self::see) what each stream has in the slot,
/// then ask for the [`verdict`](Self::verdict).
#[derive(Clone, Copy, Debug)]
pub struct Splitter {
    seen: Seen,
    // The packet that the streams shared in the slot before, if they did.
    shared: Option<TsPacket>,
}

impl Splitter {
    ghost use Rattle.std.specs.Prelude.{◌≡◌, ◌∷◌, ◌++◌, [], ℕ, List, true, Some, None, is_some};
    ghost use Rattle.std.specs.declared.option.Option.{Option};
    ghost use Rattle.std.specs.Option.{option_copied};
    ghost use Rattle.common_plp.specs.Shared.{shared_packet, is_shared};
    ghost use Rattle.common_plp.specs.StandsFor.{SplitterStandsFor, shared_of};

    /// A splitter that saw nothing.
    #[tactic(auto, unfolding(crate::specs::StandsFor::SplitterStandsFor))]
    pub fn new() -> Splitter
        ensures { SplitterStandsFor result [] None }
    {
        Splitter {
            seen: Seen::Nothing,
            shared: None,
        }
    }

    /// Sees what one stream has in the slot: a packet, or none behind its end.
    #[tactic(auto, unfolding(crate::specs::StandsFor::SplitterStandsFor))]
    pub fn see(&mut self, packet: Option<&TsPacket>)
        ensures stands { (slot : List (Option (List ℕ))) (shared : Option (List ℕ))
            → SplitterStandsFor self.old slot shared
            → SplitterStandsFor self.new (slot ++ option_copied packet.entry ∷ []) shared }
        ensures shared { shared_of self.new ≡ shared_of self.old }
    {
        self.seen = seen_with(&self.seen, packet);
    }

    /// Ends the slot: whether the streams that were seen share a packet in it. There is one at least, all have a
    /// packet, all these are equal, and they are not null.
    #[tactic(auto, unfolding(crate::specs::StandsFor::SplitterStandsFor), using(crate::proofs::SeenLemmas::shared_seen))]
    pub fn verdict(&mut self) -> bool
        ensures answer { (slot : List (Option (List ℕ))) (shared : Option (List ℕ))
            → SplitterStandsFor self.old slot shared
            → result ≡ is_shared slot }
        ensures stands { (slot : List (Option (List ℕ))) (shared : Option (List ℕ))
            → SplitterStandsFor self.old slot shared
            → SplitterStandsFor self.new [] (shared_packet slot) }
        ensures shared { result ≡ is_some (shared_of self.new) }
    {
        self.shared = shared_by(&self.seen);
        self.seen = Seen::Nothing;
        self.shared.is_some()
    }

    /// The packet that the streams shared in the slot of the last verdict, which was true.
    #[tactic(auto, unfolding(crate::specs::StandsFor::SplitterStandsFor))]
    pub fn shared(&self) -> &TsPacket
        requires { is_some (shared_of self.now) ≡ true }
        ensures packet { shared_of self.now ≡ Some result.now }
        ensures answer { (slot : List (Option (List ℕ))) (shared : Option (List ℕ))
            → SplitterStandsFor self.now slot shared
            → shared ≡ Some result.now }
    {
        self.shared.as_ref().unwrap()
    }
}
