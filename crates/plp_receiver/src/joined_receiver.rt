// The receiver of a PLP and of the common PLP of its group.
ghost use Rattle.std.specs.Prelude.{◌≡◌, ◌<◌, length};
ghost use Rattle.plp_receiver.specs.StandsFor as one;
ghost use Rattle.plp_receiver.specs.Both.{InStep};

use crate::both::{
    begin_common, common_due_law, due_law, due_of_common, give_packet, join_common, open_common,
    take_common,
};
use crate::laws::readback_law;
use crate::receiver::Receiver;
use bit_slice::OutOfMemory;
use common_plp::{groups_law, join_law};
use plp_config::Plan;
use site_frame::RecordView;
use std::alloc::Global;
use ts_packet::SIZE;

/// Gives back the packets of a PLP, if so wanted with those that all PLPs of its group have in common, from the records
/// of successive frames.
///
/// [`begin_at`](Self::begin_at) names the first frame. Then [`frame`](Self::frame) takes the record of each, and behind
/// each [`release`](Self::release) gives out what is due.
#[derive(Drop)]
pub struct JoinedReceiver<'p> {
    plan: &'p Plan,
    own: Receiver<'p>,
    // That of the common PLP of the group, if it has one.
    common: Option<Receiver<'p>>,
    ghost network: { one.network_of own ≡ plan.now },
    ghost inside: { one.plp_of own < length plan.now.plps },
    ghost step: { InStep own common },
}

impl<'p> JoinedReceiver<'p> {
    ghost use Rattle.std.specs.Prelude.{◌+◌, ◌-◌, ◌++◌, ◌∷◌, [], List, ℕ, IfOk, slice_get, Some};
    ghost use Rattle.plp_config.specs.declared.moment.TheConstants.{MOST_FRAMES};
    ghost use Rattle.site_frame.specs.declared.reading.RecordView.{RecordView};
    ghost use Rattle.plp_receiver.specs.StandsFor.{new_status};
    ghost use Rattle.plp_receiver.specs.JoinedBack.{MayJoin, JoinedBackWith};
    ghost use Rattle.plp_receiver.specs.JointStandsFor.{JoinedReceiverStandsFor, IsFresh, network_of, plp_of, frame_of};
    ghost use Rattle.plp_receiver.specs.JointStandsFor.{due_of, joins_of, status_of};

    /// Takes all the memory that is needed to receive the PLP at a place, and the common PLP of its group if its
    /// packets are to be joined: `joins` is then that PLP's place, else `None`.
    ///
    /// # Errors
    /// There is no memory for it. No later call wants any.
    #[tactic(auto, unfolding(crate::specs::JointStandsFor::JoinedReceiverStandsFor, crate::specs::JointStandsFor::IsFresh, crate::specs::JointStandsFor::due_of), using(crate::proofs::StepLemmas::opened_fresh, crate::proofs::StepLemmas::opened_due, crate::proofs::StepLemmas::opened_at))]
    pub fn open(
        alloc: Global,
        plan: &'p Plan,
        plp: usize,
        joins: Option<usize>,
    ) -> Result<JoinedReceiver<'p>, OutOfMemory>
        requires inside { plp < length plan.now.plps }
        requires may { MayJoin plan.now plp joins }
        ensures joins { IfOk result (λ j. joins_of j ≡ joins) }
        ensures fresh { IfOk result IsFresh }
        ensures status { IfOk result (λ j. status_of j ≡ new_status plan.now plp) }
    {
        groups_law();
        let own = Receiver::open(alloc, plan, plp)?;
        let common = open_common(alloc, plan, joins)?;
        own.due();
        due_of_common(&common);
        Ok(JoinedReceiver { plan, own, common })
    }

    /// Names the frame of the first record.
    #[tactic(auto, unfolding(crate::specs::JointStandsFor::JoinedReceiverStandsFor, crate::specs::JointStandsFor::IsFresh, crate::specs::JointStandsFor::due_of), using(crate::proofs::StepLemmas::begun_stands, crate::proofs::StepLemmas::begun_due))]
    pub fn begin_at(&mut self, first: u64)
        requires small { first < MOST_FRAMES }
        requires fresh { IsFresh self.old }
        ensures stands { JoinedReceiverStandsFor self.new first [] 0 }
        ensures status { status_of self.new ≡ record (status_of self.old) { frame = first; due = 0 } }
        ensures joins { joins_of self.new ≡ joins_of self.old }
    {
        self.own.begin_at(first);
        begin_common(&mut self.common, first);
    }

    /// Takes the record of the next frame. All slots that are due were given out.
    #[tactic(auto, unfolding(crate::specs::JointStandsFor::JoinedReceiverStandsFor, crate::specs::JointStandsFor::IsFresh, crate::specs::JointStandsFor::due_of), using(crate::proofs::StepLemmas::taken_stands))]
    pub fn frame(&mut self, view: &RecordView<'_>)
        requires small { frame_of self.old < MOST_FRAMES }
        requires given_out { due_of self.old ≡ 0 }
        ensures stands { (first : ℕ) (views : List RecordView) (released : ℕ)
            → JoinedReceiverStandsFor self.old first views released
            → JoinedReceiverStandsFor self.new first (views ++ view.now ∷ []) released }
        ensures status { status_of self.new ≡ record (status_of self.old) {
          frame = frame_of self.old + 1;
          due = due_of self.new;
        } }
        ensures joins { joins_of self.new ≡ joins_of self.old }
    {
        self.own.frame(view);
        take_common(&mut self.common, view);
    }

    /// How many slots are due and not given out.
    #[tactic(auto, unfolding(crate::specs::JointStandsFor::JoinedReceiverStandsFor, crate::specs::JointStandsFor::IsFresh, crate::specs::JointStandsFor::due_of))]
    pub fn due(&self) -> u64
        ensures joins { MayJoin (network_of self.now) (plp_of self.now) (joins_of self.now) }
        ensures value { result ≡ due_of self.now }
        ensures fresh { IsFresh self.now → result ≡ 0 }
        ensures some { (first : ℕ) (views : List RecordView) (released : ℕ)
            → JoinedReceiverStandsFor self.now first views released
            → (packets : List (List ℕ)) × JoinedBackWith (joins_of self.now) (network_of self.now) (plp_of self.now)
            first views packets }
        ensures answer { (first : ℕ) (views : List RecordView) (released : ℕ) (packets : List (List ℕ))
            → JoinedReceiverStandsFor self.now first views released
            → JoinedBackWith (joins_of self.now) (network_of self.now) (plp_of self.now) first views packets
            → result ≡ length packets - released }
    {
        self.plan.rules_law();
        groups_law();
        join_law();
        readback_law();
        due_law(&self.own);
        common_due_law(&self.common);
        self.own.due().max(due_of_common(&self.common))
    }

    /// The packet of the next slot, which is due: that of the PLP, or that of the common one where the PLP has a null
    /// packet.
    #[tactic(auto, unfolding(crate::specs::JointStandsFor::JoinedReceiverStandsFor, crate::specs::JointStandsFor::IsFresh, crate::specs::JointStandsFor::due_of), using(crate::proofs::StepLemmas::given_due))]
    pub fn release(&mut self, out: &mut [u8; SIZE])
        requires { 0 < due_of self.old }
        ensures stands { (first : ℕ) (views : List RecordView) (released : ℕ)
            → JoinedReceiverStandsFor self.old first views released
            → JoinedReceiverStandsFor self.new first views (released + 1) }
        ensures answer { (first : ℕ) (views : List RecordView) (released : ℕ) (packets : List (List ℕ))
            → JoinedReceiverStandsFor self.old first views released
            → JoinedBackWith (joins_of self.old) (network_of self.old) (plp_of self.old) first views packets
            → slice_get packets released ≡ Some out.new }
        ensures status { status_of self.new ≡ record (status_of self.old) { due = due_of self.old - 1 } }
        ensures joins { joins_of self.new ≡ joins_of self.old }
    {
        self.plan.rules_law();
        groups_law();
        join_law();
        due_law(&self.own);
        common_due_law(&self.common);
        give_packet(&mut self.own, out);
        join_common(&mut self.common, out);
    }
}
