// Deleting null packets.
use ts_packet::TsPacket;

/// Deletes null packets: all but each one that 255 deleted ones precede.
#[derive(Drop)]
pub struct Deleter {
    deletes: bool,
    // The packets deleted behind the last one that was kept.
    deleted: u8,
}

impl Deleter {
    ghost use Rattle.std.specs.Prelude.{◌≡◌, ◌∷◌, ◌++◌, [], ℕ, List, Bool};
    ghost use Rattle.null_delete.specs.Deletion.{answer_of};
    ghost use Rattle.null_delete.specs.StandsFor.{DeleterStandsFor};

    /// A deleter of no packets yet, that deletes null packets or keeps all.
    #[tactic(auto, unfolding(crate::specs::StandsFor::DeleterStandsFor), using(crate::proofs::PushLemmas::next_none))]
    pub fn new(on: bool) -> Deleter
        ensures { DeleterStandsFor result on [] }
    {
        Deleter {
            deletes: on,
            deleted: 0,
        }
    }

    /// Takes the packet of the next slot. If it is kept, the answer is its dnp: the number of packets that were deleted
    /// directly before it.
    #[tactic(auto, unfolding(crate::specs::StandsFor::DeleterStandsFor), using(crate::proofs::PushLemmas::answer_is, crate::proofs::PushLemmas::next_is))]
    pub fn push(&mut self, packet: &TsPacket) -> Option<u8>
        ensures stands { (on : Bool) (packets : List (List ℕ)) → DeleterStandsFor self.old on packets
            → DeleterStandsFor self.new on (packets ++ packet.now ∷ []) }
        ensures answer { (on : Bool) (packets : List (List ℕ)) → DeleterStandsFor self.old on packets
            → result ≡ answer_of on packets packet.now }
    {
        if self.deletes && self.deleted < 255 && packet.is_null() {
            self.deleted += 1;
            return None;
        }
        let dnp = self.deleted;
        self.deleted = 0;
        Some(dnp)
    }
}
