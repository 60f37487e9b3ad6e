// The packets of the frame under way.
ghost use Rattle.std.specs.Prelude.{◌≡◌, ◌<◌, ◌^◌, ℕ, Bool, List, Option, Some, IfSome, is_some, true, false};
ghost use Rattle.plp_config.specs.declared.moment.TheConstants.{MOST_FRAMES};
ghost use Rattle.t2mi_packet.specs.T2miPacket.{Fits};
ghost use Rattle.frame_groups.specs.declared.key.Key.{Key};
ghost use Rattle.frame_groups.specs.Groups.{Group};
ghost use Rattle.frame_groups.specs.Grouping.{one_packet, one_more, key_of};
ghost use Rattle.frame_groups.specs.Modulated.{Numbered, Rules};
ghost use Rattle.frame_groups.specs.Sequenced.{IsAbove, past_of};

use crate::cause::MuteCause;
use crate::key::Key;
use t2mi_packet::Packet;

/// The group under way, and what decides of it.
pub trait OpenGroup {
    /// It stands for a group, or for none, behind groups that have numbers.
    ghost holds: { Self → List Numbered → Option Group → Type 0 };

    ghost key_now: { Self → Option Key };

    ghost rules: { Self → Rules };

    /// Its packets are all there. They need not be once it is closed.
    ghost is_intact: { Self → Bool };

    /// What is held can be given as a frame.
    ghost is_frame: { Self → Bool };

    /// How many frames a superframe has.
    fn frames(&self) -> u8
        ensures value { result ≡ (rules self.now).frames }
        ensures some { 0 < result };

    /// The key of the group, if there is one.
    fn key(&self) -> Option<Key>
        ensures value { result ≡ key_now self.now }
        ensures is { (past : List Numbered) (g : Option Group) → holds self.now past g → key_of g ≡ key_now self.now };

    /// Begins a group in place of the one that there is, behind this one if it has a number.
    fn begin(&mut self, number: Option<u64>, key: Key, packet: &Packet<'_>)
        requires fits { Fits packet.now }
        requires some { is_some number ≡ true → is_some (key_now self.old) ≡ true }
        ensures group { (past : List Numbered) (g : Option Group) → holds self.old past g
            → ((n : ℕ) → number ≡ Some n → IsAbove past n)
            → holds self.new (past_of past g number) (Some (one_packet key packet.now)) }
        ensures intact { is_intact self.new ≡ true }
        ensures key { key_now self.new ≡ Some key }
        ensures rules { rules self.new ≡ rules self.old };

    /// Adds a packet.
    fn add(&mut self, packet: &Packet<'_>)
        requires fits { Fits packet.now }
        requires some { is_some (key_now self.old) ≡ true }
        requires intact { is_intact self.old ≡ true }
        ensures group { (past : List Numbered) (h : Group) → holds self.old past (Some h)
            → holds self.new past (Some (one_more h packet.now)) }
        ensures intact { is_intact self.new ≡ true }
        ensures key { key_now self.new ≡ key_now self.old }
        ensures rules { rules self.new ≡ rules self.old };

    /// The frame that its timestamp names: below `plp_config::MOST_FRAMES`.
    fn named(&self) -> Option<u64>
        requires { is_intact self.now ≡ true }
        ensures value { (past : List Numbered) (h : Group) → holds self.now past (Some h)
            → result ≡ (rules self.now).named h }
        ensures small { IfSome result (λ n. n < MOST_FRAMES) };

    /// Why it is not the frame of a number, which is above those of the groups before it.
    fn fault(&self, number: u64) -> Option<MuteCause>
        requires intact { is_intact self.now ≡ true }
        requires small { number < 2 ^ 32 }
        ensures value { (past : List Numbered) (h : Group) → holds self.now past (Some h) → IsAbove past number
            → result ≡ (rules self.now).fault past h number }
        ensures frame { is_some result ≡ false → is_frame self.now ≡ true };
}
