// Finding the slots of packets again.

/// Follows the dnps of kept packets from slot to slot.
#[derive(Drop)]
pub struct Inserter {
    slot: u64,
}

impl Inserter {
    ghost use Rattle.std.specs.Prelude.{◌≡◌, ◌<◌, ◌+◌, ◌^◌, ◌∷◌, ◌++◌, [], ℕ, List};
    ghost use Rattle.null_delete.specs.Deletion.{slot_after};
    ghost use Rattle.null_delete.specs.StandsFor.{InserterStandsFor, slot_of};

    /// An inserter at the slot of a packet.
    #[tactic(auto, unfolding(crate::specs::StandsFor::InserterStandsFor))]
    pub fn new(slot: u64) -> Inserter
        ensures stands { InserterStandsFor result slot [] }
        ensures slot { slot_of result ≡ slot }
    {
        Inserter { slot }
    }

    /// Takes the dnp of the next packet, and answers its slot.
    #[tactic(auto, unfolding(crate::specs::StandsFor::InserterStandsFor), using(crate::proofs::PushLemmas::slot_more))]
    pub fn push(&mut self, dnp: u8) -> u64
        requires { slot_of self.old + 1 + dnp < 2 ^ 54 }
        ensures stands { (first : ℕ) (dnps : List ℕ) → InserterStandsFor self.old first dnps
            → InserterStandsFor self.new first (dnps ++ dnp ∷ []) }
        ensures answer { (first : ℕ) (dnps : List ℕ) → InserterStandsFor self.old first dnps
            → result ≡ slot_after first (dnps ++ dnp ∷ []) }
        ensures next { result ≡ slot_of self.old + 1 + dnp }
        ensures slot { slot_of self.new ≡ result }
    {
        self.slot += 1 + u64::from(dnp);
        self.slot
    }
}
