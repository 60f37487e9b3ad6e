// The records of frames, in order.
ghost use Rattle.std.specs.Prelude.{◌≡◌, ◌<◌, ◌≤◌, ◌+◌, ◌⊎◌, ℕ, List, [], Option, Some, None, is_some, true, false};
ghost use Rattle.plp_config.specs.declared.moment.TheConstants.{MOST_FRAMES};
ghost use Rattle.t2mi_packet.specs.declared.packet.Packet.{Packet};
ghost use Rattle.frame_groups.specs.Groups.{Group};
ghost use Rattle.frame_groups.specs.Modulated.{FrameRecord, join_number};
ghost use Rattle.frame_groups.specs.Numbers.{IsKey, next_number};
ghost use Rattle.frame_groups.specs.Sequenced.{Keeps};
ghost use Rattle.frame_groups.specs.Waits.{wants_packets, records_left, IsWithin, greatest_step, most_number};

use crate::cause::MuteCause;
use crate::group::OpenGroup;
use crate::key::{Key, goes_on, is_counted, key_behind};
use crate::number::next_number;
use crate::waiting::Progress;
use t2mi_packet::Packet;

// The number of a group that may be the join.
fn join_number<G: OpenGroup>(group: &G) -> Option<u64>
    requires { G.is_intact group.now ≡ true }
    ensures value { (h : Group) → G.holds group.now [] (Some h) → result ≡ join_number (G.rules group.now) h }
    ensures passes { (h : Group) → G.holds group.now [] (Some h) → (n : ℕ) → result ≡ Some n
        → (G.rules group.now).fault [] h n ≡ None }
    ensures small { (n : ℕ) → result ≡ Some n → n < MOST_FRAMES }
    ensures frame { is_some result ≡ true → G.is_frame group.now ≡ true }
{
    let Some(key) = group.key() else {
        return None;
    };
    if key.frame != 0 {
        return None;
    }
    let Some(number) = group.named() else {
        return None;
    };
    match group.fault(number) {
        Some(_) => None,
        None => Some(number),
    }
}

// How far the records have come once the group is closed.
fn close_group<G: OpenGroup>(group: &G, progress: Progress) -> Progress
    requires open { progress.closing ≡ false }
    requires some { is_some (G.key_now group.now) ≡ true }
    requires near { IsWithin most_number progress }
    requires intact { G.is_intact group.now ≡ true }
    ensures follows { (ps : List Packet) (given : List FrameRecord)
        → Keeps (G.holds group.now) (G.rules group.now) progress ps given
        → Keeps (G.holds group.now) (G.rules group.now) result ps given }
    ensures closing { result.closing ≡ true }
    ensures near { (bound : ℕ) → MOST_FRAMES ≤ bound → IsWithin bound progress → IsWithin bound result }
    ensures next { (result.next ≡ progress.next) ⊎ (result.next < MOST_FRAMES) }
    ensures left { records_left result ≤ records_left progress }
    ensures frame { is_some result.number ≡ true → is_some result.fault ≡ false → G.is_frame group.now ≡ true }
{
    // A call that tells that the group that is held has this key.
    let _key = group.key();
    match progress.number {
        Some(number) => Progress {
            number: Some(number),
            next: progress.next,
            closing: true,
            fault: group.fault(number),
        },
        None => match join_number(group) {
            Some(first) => Progress {
                number: Some(first),
                next: first,
                closing: true,
                fault: None,
            },
            None => Progress {
                number: None,
                next: progress.next,
                closing: true,
                fault: None,
            },
        },
    }
}

// The number of the next group.
fn number_behind(frames: u8, number: Option<u64>, key: Key) -> Option<u64>
    requires some { 0 < frames }
    requires small { (n : ℕ) → number ≡ Some n → n ≤ most_number }
    ensures none { number ≡ None → result ≡ None }
    ensures some { (n : ℕ) → number ≡ Some n → IsKey frames key → result ≡ Some (next_number frames n key) }
    ensures near { (bound : ℕ) → ((n : ℕ) → number ≡ Some n → n ≤ bound) → (n : ℕ) → result ≡ Some n
        → n ≤ bound + greatest_step }
{
    match number {
        Some(number) => Some(next_number(frames, number, key)),
        None => None,
    }
}

/// Groups one after another, and their records.
#[derive(Drop)]
pub struct Sequence<G: OpenGroup + Drop> {
    pub group: G,
    pub progress: Progress,
    ghost near: { IsWithin most_number progress },
    ghost intact: { wants_packets progress ≡ true → G.is_intact group ≡ true },
    // A group that passes can be given.
    ghost frame: { progress.closing ≡ true → is_some progress.number ≡ true → is_some progress.fault ≡ false
        → G.is_frame group ≡ true },
}

impl<G: OpenGroup + Drop> Sequence<G> {
    ghost use Rattle.std.specs.Prelude.{◌≡◌, ◌<◌, ◌≤◌, ◌+◌, ◌-◌, ◌++◌, ◌∷◌, ℕ, List, [], Option, Some, None, is_some};
    ghost use Rattle.std.specs.Prelude.{true, false};
    ghost use Rattle.plp_config.specs.declared.moment.TheConstants.{MOST_FRAMES};
    ghost use Rattle.t2mi_packet.specs.declared.packet.Packet.{Packet};
    ghost use Rattle.frame_groups.specs.Groups.{Group, is_counted, is_same, key_behind};
    ghost use Rattle.frame_groups.specs.Modulated.{FrameRecord};
    ghost use Rattle.t2mi_packet.specs.T2miPacket.{Fits};
    ghost use Rattle.frame_groups.specs.Sequenced.{Keeps, record_now, Ends};
    ghost use Rattle.frame_groups.specs.Waits.{waits, records_left, IsWithin, greatest_step, most_number};

    /// No packet came. The group is none.
    pub fn new(group: G) -> Sequence<G>
        requires none { G.holds group [] None }
        requires intact { G.is_intact group ≡ true }
        ensures stands { Keeps (G.holds result.group) (G.rules result.group) result.progress [] [] }
        ensures next { result.progress.next ≡ 0 }
        ensures none { result.progress.number ≡ None }
        ensures open { result.progress.closing ≡ false }
        ensures rules { G.rules result.group ≡ G.rules group }
    {
        Sequence {
            group,
            progress: Progress {
                number: None,
                next: 0,
                closing: false,
                fault: None,
            },
        }
    }

    /// Closes the group.
    pub fn close(&mut self)
        requires open { self.old.progress.closing ≡ false }
        requires some { is_some (G.key_now self.old.group) ≡ true }
        ensures follows { (ps : List Packet) (given : List FrameRecord)
            → Keeps (G.holds self.old.group) (G.rules self.old.group) self.old.progress ps given
            → Keeps (G.holds self.old.group) (G.rules self.old.group) self.new.progress ps given }
        ensures group { self.new.group ≡ self.old.group }
        ensures intact { G.is_intact self.new.group ≡ true }
        ensures closing { self.new.progress.closing ≡ true }
        ensures near { (bound : ℕ) → MOST_FRAMES ≤ bound → IsWithin bound self.old.progress
            → IsWithin bound self.new.progress }
        ensures next { (self.new.progress.next ≡ self.old.progress.next) ⊎ (self.new.progress.next < MOST_FRAMES) }
        ensures left { records_left self.new.progress ≤ records_left self.old.progress }
    {
        self.progress = close_group(&self.group, self.progress);
    }

    // Begins the next group, once the record of the one before was given.
    fn begin(&mut self, key: Key, packet: &Packet<'_>)
        requires closing { self.old.progress.closing ≡ true }
        requires key { G.key_now self.old.group ≡ Some key }
        requires idle { waits self.old.progress ≡ false }
        requires near { IsWithin (most_number - greatest_step) self.old.progress }
        requires counted { is_counted (G.rules self.old.group).frames packet.now ≡ true }
        requires fits { Fits packet.now }
        ensures follows { (ps : List Packet) (given : List FrameRecord)
            → is_same key (key_behind (Some key) packet.now) ≡ false
            → Keeps (G.holds self.old.group) (G.rules self.old.group) self.old.progress ps given
            → Keeps (G.holds self.new.group) (G.rules self.new.group) self.new.progress (ps ++ packet.now ∷ []) given }
        ensures rules { G.rules self.new.group ≡ G.rules self.old.group }
        ensures near { (bound : ℕ) → IsWithin bound self.old.progress
            → IsWithin (bound + greatest_step) self.new.progress }
        ensures next { self.new.progress.next ≡ self.old.progress.next }
        ensures open { self.new.progress.closing ≡ false }
        ensures intact { G.is_intact self.new.group ≡ true }
    {
        // A call that tells that the group that is held has this key.
        let _key = self.group.key();
        let next_key = key_behind(Some(key), packet);
        let number = number_behind(self.group.frames(), self.progress.number, next_key);
        self.group.begin(self.progress.number, next_key, packet);
        self.progress.number = number;
        self.progress.closing = false;
    }

    // Ends the group with a packet that has another key, and begins the next, unless a record waits.
    fn end_group(&mut self, key: Key, packet: &Packet<'_>) -> bool
        requires open { self.old.progress.closing ≡ false }
        requires key { G.key_now self.old.group ≡ Some key }
        requires near { IsWithin (most_number - greatest_step) self.old.progress }
        requires counted { is_counted (G.rules self.old.group).frames packet.now ≡ true }
        requires fits { Fits packet.now }
        ensures worked { result ≡ true → (ps : List Packet) (given : List FrameRecord)
            → is_same key (key_behind (Some key) packet.now) ≡ false
            → Keeps (G.holds self.old.group) (G.rules self.old.group) self.old.progress ps given
            → Keeps (G.holds self.new.group) (G.rules self.new.group) self.new.progress (ps ++ packet.now ∷ []) given }
        ensures kept { result ≡ false → (ps : List Packet) (given : List FrameRecord)
            → Keeps (G.holds self.old.group) (G.rules self.old.group) self.old.progress ps given
            → Keeps (G.holds self.new.group) (G.rules self.new.group) self.new.progress ps given }
        ensures waits { result ≡ false → (self.new.progress.closing ≡ true) × (waits self.new.progress ≡ true)
            × (self.new.group ≡ self.old.group) }
        ensures open { result ≡ true → self.new.progress.closing ≡ false }
        ensures intact { G.is_intact self.new.group ≡ true }
        ensures rules { G.rules self.new.group ≡ G.rules self.old.group }
        ensures near { (bound : ℕ) → MOST_FRAMES ≤ bound → IsWithin bound self.old.progress
            → IsWithin (bound + greatest_step) self.new.progress }
        ensures same { result ≡ false → (bound : ℕ) → MOST_FRAMES ≤ bound → IsWithin bound self.old.progress
            → IsWithin bound self.new.progress }
        ensures next { (self.new.progress.next ≡ self.old.progress.next) ⊎ (self.new.progress.next < MOST_FRAMES) }
        ensures left { result ≡ false → records_left self.new.progress ≤ records_left self.old.progress }
    {
        self.close();
        if self.progress.waiting().is_some() {
            return false;
        }
        self.begin(key, packet);
        true
    }

    /// Works off a packet, unless its group is closed by it and a record waits: then it has to come again, once the
    /// record was given.
    pub fn work(&mut self, packet: &Packet<'_>) -> bool
        requires idle { waits self.old.progress ≡ false }
        requires near { IsWithin (most_number - greatest_step) self.old.progress }
        requires fits { Fits packet.now }
        ensures worked { result ≡ true → (ps : List Packet) (given : List FrameRecord)
            → Keeps (G.holds self.old.group) (G.rules self.old.group) self.old.progress ps given
            → (self.old.progress.closing ≡ true → Ends (G.rules self.old.group) (G.key_now self.old.group) packet.now)
            → Keeps (G.holds self.new.group) (G.rules self.new.group) self.new.progress (ps ++ packet.now ∷ []) given }
        ensures kept { result ≡ false → (ps : List Packet) (given : List FrameRecord)
            → Keeps (G.holds self.old.group) (G.rules self.old.group) self.old.progress ps given
            → Keeps (G.holds self.new.group) (G.rules self.new.group) self.new.progress ps given }
        ensures waits { result ≡ false → (self.new.progress.closing ≡ true) × (waits self.new.progress ≡ true)
            × Ends (G.rules self.new.group) (G.key_now self.new.group) packet.now }
        // The packets of the record that waits are there.
        ensures intact { waits self.new.progress ≡ true → G.is_intact self.new.group ≡ true }
        ensures open { result ≡ true → self.new.progress.closing ≡ true
            → (self.old.progress.closing ≡ true) × (is_counted (G.rules self.old.group).frames packet.now ≡ false) }
        ensures rules { G.rules self.new.group ≡ G.rules self.old.group }
        ensures near { (bound : ℕ) → MOST_FRAMES ≤ bound → IsWithin bound self.old.progress
            → IsWithin (bound + greatest_step) self.new.progress }
        ensures same { result ≡ false → (bound : ℕ) → MOST_FRAMES ≤ bound → IsWithin bound self.old.progress
            → IsWithin bound self.new.progress }
        ensures next { (self.new.progress.next ≡ self.old.progress.next) ⊎ (self.new.progress.next < MOST_FRAMES) }
        ensures left { result ≡ false → records_left self.new.progress ≤ records_left self.old.progress }
    {
        if !is_counted(self.group.frames(), packet) {
            return true;
        }
        let Some(key) = self.group.key() else {
            self.group.begin(None, key_behind(None, packet), packet);
            self.progress.closing = false;
            return true;
        };
        if self.progress.closing {
            self.begin(key, packet);
            return true;
        }
        if goes_on(key, packet) {
            self.group.add(packet);
            return true;
        }
        self.end_group(key, packet)
    }

    /// The record that waits was given.
    pub fn gave(&mut self)
        requires { waits self.old.progress ≡ true }
        ensures follows { (ps : List Packet) (given : List FrameRecord) (x : FrameRecord)
            → (k : Keeps (G.holds self.old.group) (G.rules self.old.group) self.old.progress ps given)
            → record_now (G.rules self.old.group) k.past k.group self.old.progress.number self.old.progress.next ≡ Some
            x
            → Keeps (G.holds self.new.group) (G.rules self.new.group) self.new.progress ps (given ++ x ∷ []) }
        ensures group { self.new.group ≡ self.old.group }
        ensures intact { waits self.new.progress ≡ true → G.is_intact self.new.group ≡ true }
        ensures rest { self.new.progress ≡ record (self.old.progress) { next = self.old.progress.next + 1 } }
        ensures left { records_left self.new.progress < records_left self.old.progress }
    {
        self.progress.next += 1;
    }
}
