// Putting user packets together.
ghost use Rattle.std.specs.Prelude.{◌≡◌, ◌^◌, ◌+◌, ◌<◌, ◌≤◌, ◌++◌, ◌==◌, length, take, IfSome, Some, None, ℕ};
ghost use Rattle.std.specs.Prelude.{if◌then◌else◌};
ghost use Rattle.plp_receiver.specs.Base.{slot_with, next_len, is_idle};
ghost use Rattle.plp_config.specs.declared.moment.TheConstants.{MOST_FRAMES};
ghost use Rattle.plp_receiver.specs.Sound.{IsSound};

use crate::mark::Mark;
use crate::slot_rule::SlotRule;
use ts_packet::{SIZE, SYNC, TsPacket};

/// How the user packet under way gets its slot.
#[derive(Clone, Copy)]
pub struct Base {
    // By its ISCR: then `slot` is its own, else that of the one before it.
    pub timed: bool,
    pub slot: Option<u64>,
    // The epoch in which it begins.
    pub epoch: u64,
}

/// A complete user packet with a slot.
#[derive(Clone, Copy, Debug, PartialEq, Eq)]
pub struct Found {
    pub slot: u64,
    /// The epoch in which it begins.
    pub epoch: u64,
}

/// Puts user packets together from the pieces of data fields.
#[derive(Drop)]
pub struct Assembler {
    rule: SlotRule,
    // The first bytes of the user packet under way, and how many they are.
    held: [u8; SIZE],
    len: usize,
    base: Base,
    ghost sound: { IsSound rule },
    ghost short: { len < rule.up_len },
    ghost recent: { base.epoch < MOST_FRAMES },
    ghost near: { (k : ℕ) → base.slot ≡ Some k → k ≤ 2 ^ 53 },
}

// No range of an epoch reaches this slot.
const FAR: u64 = 1 << 53;

// Writes a piece behind the first bytes.
fn put(held: &mut [u8; SIZE], from: usize, piece: &[u8])
    requires inside { from + length piece.now ≤ SIZE }
    ensures front { take (from + length piece.now) held.new ≡ take from held.old ++ piece.now }
{
    held[from..from + piece.len()].copy_from_slice(piece);
}

// The slot of a user packet of a base and a dnp. None is kept that a range could not reach.
fn slot_with(base: Base, dnp: u8) -> Option<u64>
    requires { IfSome base.slot (λ k. k ≤ 2 ^ 53) }
    ensures value { result ≡ slot_with base dnp }
    ensures small { IfSome result (λ k. k ≤ 2 ^ 53) }
{
    if base.timed {
        return base.slot;
    }
    match base.slot {
        None => None,
        Some(slot) => Some((slot + 1 + u64::from(dnp)).min(FAR)),
    }
}

// If nothing is held, the slot of the user packet before.
fn before_next(len: usize, base: Base) -> Option<u64>
    ensures { result ≡ (if len == 0 then base.slot else None) }
{
    if len == 0 { base.slot } else { None }
}

// How many of the bytes held a piece goes on with.
fn from_of(len: usize, mark: Mark) -> usize
    ensures value { result ≡ next_len len mark }
    ensures least { result ≤ len }
{
    match mark {
        Mark::Inside => len,
        _ => 0,
    }
}

// Whether a piece goes on with nothing.
fn is_idle(len: usize, mark: Mark) -> bool
    ensures { result ≡ is_idle len mark }
{
    match mark {
        Mark::Inside => len == 0,
        _ => false,
    }
}

impl Assembler {
    ghost use Rattle.std.specs.Prelude.{◌≡◌, ◌^◌, ◌-◌, ◌<◌, ◌≤◌, ◌++◌, ◌∷◌, [], length, ℕ, List, Some, IfSome};
    ghost use Rattle.std.specs.Prelude.{if◌then◌else◌};
    ghost use Rattle.plp_receiver.specs.declared.slot_rule.SlotRule.{SlotRule};
    ghost use Rattle.plp_receiver.specs.Strings.{Item, gap};
    ghost use Rattle.plp_receiver.specs.Packets.{user_packets, packet_of};
    ghost use Rattle.plp_receiver.specs.Pieces.{piece_items};
    ghost use Rattle.plp_receiver.specs.Assembles.{next_base, kept_dnp, IsEpoch, IsCleared, Ends, Gains};
    ghost use Rattle.plp_receiver.specs.Assembles.{AssemblerStandsFor};

    /// An assembler of no data fields yet.
    #[tactic(auto, unfolding(crate::specs::Assembles::AssemblerStandsFor), using(crate::proofs::OutLemmas::new_stands))]
    pub fn new(rule: SlotRule) -> Assembler
        requires sound { IsSound rule }
        ensures stands { AssemblerStandsFor result rule [] }
        ensures rule { result.rule ≡ rule }
    {
        Assembler {
            rule,
            held: [0; SIZE],
            len: 0,
            base: Base {
                timed: false,
                slot: None,
                epoch: 0,
            },
        }
    }

    /// Bytes of a user packet.
    pub fn up_len(&self) -> usize
        ensures { result ≡ self.now.rule.up_len }
    {
        self.rule.up_len
    }

    /// A block is not taken, or an epoch is not there.
    pub fn gap(&mut self)
        ensures rule { self.new.rule ≡ self.old.rule }
        ensures stands { (r : SlotRule) (z : List Item) (epoch : ℕ) → AssemblerStandsFor self.old r z
            → AssemblerStandsFor self.new r (z ++ gap epoch ∷ []) }
        ensures none { (r : SlotRule) (z : List Item) (epoch : ℕ) → AssemblerStandsFor self.old r z
            → user_packets r (z ++ gap epoch ∷ []) ≡ user_packets r z }
    {
        self.clear();
    }

    /// The transport packet of the user packet that was found last.
    pub fn packet(&self) -> TsPacket
        ensures { result ≡ packet_of self.now.held }
    {
        let mut bytes = [SYNC; SIZE];
        bytes[1..].copy_from_slice(&self.held[..SIZE - 1]);
        TsPacket::from_array(bytes)
    }

    // The base of the user packet that a piece begins or goes on with.
    fn base_of(&self, mark: Mark, epoch: u64) -> Base
        requires epoch { IsEpoch epoch mark }
        ensures value { result ≡ next_base self.now.rule self.now.len self.now.base mark epoch }
        ensures small { IfSome result.slot (λ k. k ≤ 2 ^ 53) }
        ensures epoch { result.epoch < MOST_FRAMES }
    {
        match mark {
            Mark::Gap => Base {
                timed: false,
                slot: None,
                epoch,
            },
            Mark::Inside => self.base,
            Mark::Next => Base {
                timed: false,
                slot: before_next(self.len, self.base),
                epoch,
            },
            Mark::Timed(iscr) => Base {
                timed: true,
                slot: self.rule.times.slot_of_iscr(epoch, iscr),
                epoch,
            },
        }
    }

    // Forgets what is held.
    fn clear(&mut self)
        ensures { IsCleared self.old self.new }
    {
        self.len = 0;
        self.base.slot = None;
    }

    // The dnp of a whole user packet.
    fn dnp(&self) -> u8
        ensures { result ≡ kept_dnp self.now.rule self.now.held }
    {
        if self.rule.deletes {
            self.held[self.rule.up_len - 1]
        } else {
            0
        }
    }

    // Ends a whole user packet.
    fn end(&mut self, base: Base) -> Option<Found>
        requires near { (k : ℕ) → base.slot ≡ Some k → k ≤ 2 ^ 53 }
        ensures ends { Ends self.old self.new base result }
        ensures epoch { IfSome result (λ f. f.epoch ≡ base.epoch) }
    {
        let slot = slot_with(base, self.dnp());
        self.len = 0;
        self.base.slot = slot;
        match slot {
            None => None,
            Some(slot) => Some(Found {
                slot,
                epoch: base.epoch,
            }),
        }
    }

    /// Takes a piece of a data field of an epoch: a user packet begins at its first byte at most, and one can end where
    /// it ends.
    /// It answers the user packet that ends there, if it is complete and has a slot.
    pub fn piece(&mut self, mark: Mark, epoch: u64, bytes: &[u8]) -> Option<Found>
        requires epoch { IsEpoch epoch mark }
        requires some { 1 ≤ length bytes.now }
        ensures rule { self.new.rule ≡ self.old.rule }
        ensures recent { IfSome result (λ f. f.epoch < MOST_FRAMES) }
        ensures stands { (r : SlotRule) (z : List Item) → AssemblerStandsFor self.old r z
            → AssemblerStandsFor self.new r (z ++ piece_items mark epoch bytes.now) }
        ensures answer { (r : SlotRule) (z : List Item) → AssemblerStandsFor self.old r z
            → Gains r z epoch (piece_items mark epoch bytes.now) self.new.held result }
    {
        let base = self.base_of(mark, epoch);
        let from = from_of(self.len, mark);
        if is_idle(self.len, mark) {
            self.clear();
            return None;
        }
        let total = from + bytes.len();
        if total > self.rule.up_len {
            self.clear();
            return None;
        }
        put(&mut self.held, from, bytes);
        if total < self.rule.up_len {
            self.len = total;
            self.base = base;
            return None;
        }
        self.end(base)
    }
}
