// The receiver of a PLP.
ghost use Rattle.std.specs.Prelude.{◌≡◌, ◌<◌, ◌≤◌, ◌+◌, ◌-◌, ◌++◌, ◌∷◌, [], List, ℕ, IfOk, true, false, length};
ghost use Rattle.std.specs.Prelude.{vec_len, slice_get, Some, nat_lt, if◌then◌else◌};
ghost use Rattle.plp_config.specs.Plps.{plp_at, spread};
ghost use Rattle.plp_config.specs.Capacity.{block_bytes};
ghost use Rattle.plp_config.specs.SlotTime.{window, window_slots};
ghost use Rattle.plp_receiver.specs.SlotsStandFor.{is_within, rule_of};
ghost use Rattle.plp_config.specs.SlotTimes.{delay_of};

use crate::blocks::take_epoch;
use crate::held::HeldBlocks;
use crate::laws::readback_law;
use crate::parts::see_part;
use crate::plp_rule::open_slots;
use crate::readable::is_readable;
use crate::slots::PacketSlots;
use bit_slice::{BitSlice, OutOfMemory};
use frame_groups::Network;
use l1_signal::L1Dyn;
use plp_config::{Plan, block_law};
use scheduler::Shape;
use site_frame::{Blocks, Cells, RecordView};
use std::alloc::Global;
use ts_packet::SIZE;

// The spread of a PLP is 1 at least.
fn some_spread_law(plan: &Plan, plp: usize)
    requires { plp < length plan.now.plps }
    ensures { 1 ≤ spread plan.now.plps plp }
{
    let _spread = plan.spread(plp);
}

/// Gives back the packets of a PLP, from the records of successive frames.
///
/// [`begin_at`](Self::begin_at) names the first frame. Then [`frame`](Self::frame) takes the record of each, and behind
/// each [`release`](Self::release) gives out what is due.
#[derive(Drop)]
pub struct Receiver<'p> {
    network: Network<'p>,
    plp: usize,
    slots: PacketSlots,
    // Room for what a record tells.
    dynamic: L1Dyn,
    shape: Shape,
    // The blocks of the epoch under way.
    held: HeldBlocks,
    ghost configured: { plp < length network.plps },
    ghost outside: { is_within slots ≡ false },
    ghost window: { window_slots (rule_of slots).times.num (rule_of slots).times.den (delay_of (rule_of slots).times)
        (rule_of slots).ticks ≡ window network plp },
    ghost rows: { length dynamic.plps ≡ length network.plps },
    ghost plps: { length shape.counts ≡ length network.plps },
    ghost spread: { 1 ≤ spread network.plps plp },
    ghost few: { vec_len held.stands ≡ (plp_at network.plps plp).blocks },
    ghost size: { held.len ≡ block_bytes network plp },
}

impl<'p> Receiver<'p> {
    ghost use Rattle.plp_config.specs.declared.moment.TheConstants.{MOST_FRAMES};
    ghost use Rattle.site_frame.specs.declared.reading.RecordView.{RecordView};
    ghost use Rattle.plp_receiver.specs.Epochs.{Readback, part_of};
    ghost use Rattle.plp_config.specs.declared.moment.Moment.{Moment};
    ghost use Rattle.site_frame.specs.declared.reading.RecordView.TheVariants.{Frame};
    ghost use Rattle.plp_receiver.specs.Holds.{Sees, Holds, is_begun};
    ghost use Rattle.plp_receiver.specs.Parts.{Part};
    ghost use Rattle.plp_receiver.specs.SlotsStandFor.{ends_epoch};
    ghost use Rattle.std.specs.Prelude.{Option};
    ghost use Rattle.plp_receiver.specs.Taking.{EndsRecord, TellsEpoch};
    ghost use Rattle.plp_receiver.specs.StandsFor.{ReceiverStandsFor, IsFresh, slots_come, network_of, plp_of};
    ghost use Rattle.plp_receiver.specs.StandsFor.{frame_of, due_of, status_of, new_status, unseen_of};

    /// Takes all the memory that is needed to receive the PLP at a place.
    ///
    /// # Errors
    /// There is no memory for it. No later call wants any.
    pub fn open(alloc: Global, plan: &'p Plan, plp: usize) -> Result<Receiver<'p>, OutOfMemory>
        requires { plp < length plan.now.plps }
        ensures fresh { IfOk result IsFresh }
        ensures status { IfOk result (λ v. status_of v ≡ new_status plan.now plp) }
    {
        block_law();
        some_spread_law(plan, plp);
        let count = usize::from(plan.config().plps.get(plp).unwrap().blocks);
        let plps = plan.config().plps.len() as u16;
        Ok(Receiver {
            network: Network::open(alloc, plan)?,
            plp,
            slots: open_slots(alloc, plan, plp)?,
            dynamic: L1Dyn::open(alloc, plps)?,
            shape: Shape::open(alloc, plan)?,
            held: HeldBlocks::open(alloc, count, plan.block_bytes(plp) as usize)?,
        })
    }

    /// Names the frame of the first record.
    pub fn begin_at(&mut self, first: u64)
        requires small { first < MOST_FRAMES }
        requires fresh { IsFresh self.old }
        ensures stands { ReceiverStandsFor self.new first [] 0 }
        ensures status { status_of self.new ≡ record (status_of self.old) { frame = first; due = 0 } }
    {
        self.slots.begin_at(first);
    }

    /// Takes the record of the next frame. All slots that are due were given out.
    pub fn frame(&mut self, view: &RecordView<'_>)
        requires small { frame_of self.old < MOST_FRAMES }
        requires given_out { due_of self.old ≡ 0 }
        ensures stands { (first : ℕ) (views : List RecordView) (released : ℕ)
            → ReceiverStandsFor self.old first views released
            → ReceiverStandsFor self.new first (views ++ view.now ∷ []) released }
        ensures status { status_of self.new ≡ record (status_of self.old) {
          frame = frame_of self.old + 1;
          due = due_of self.new;
        } }
    {
        self.see(view);
        self.end_record();
    }

    // Sees the record of the next frame.
    fn see(&mut self, view: &RecordView<'_>)
        ensures sees { Sees (network_of self.old) (plp_of self.old) (frame_of self.old)
            (part_of (network_of self.old) (frame_of self.old) view.now) self.old.held self.new.held }
        ensures unseen { unseen_of self.new ≡ unseen_of self.old }
    {
        match view {
            RecordView::Muted { .. } => self.held.lose(),
            RecordView::Frame {
                pre,
                post,
                blocks,
                cells,
                ..
            } => self.see_frame(pre, post, blocks, cells),
        }
    }

    // Sees the record of a frame with these parts.
    fn see_frame(
        &mut self,
        pre: &BitSlice<'_>,
        post: &BitSlice<'_>,
        blocks: &Blocks<'_>,
        cells: &Cells<'_>,
    )
        ensures sees { (moment : Moment) → Sees (network_of self.old) (plp_of self.old) (frame_of self.old)
            (part_of (network_of self.old) (frame_of self.old) (Frame moment pre.now post.now blocks.now cells.now))
            self.old.held self.new.held }
        ensures unseen { unseen_of self.new ≡ unseen_of self.old }
    {
        let number = self.slots.frame();
        if is_readable(
            &self.network,
            number,
            pre,
            post,
            blocks,
            cells,
            &mut self.dynamic,
            &mut self.shape,
        ) {
            see_part(
                self.network.plan(),
                &self.shape,
                self.plp,
                number,
                blocks,
                cells,
                &mut self.held,
            );
        } else {
            self.held.lose();
        }
    }

    // The next frame comes, whose record was seen: if an epoch ends with it, its blocks are taken.
    fn end_record(&mut self)
        requires small { frame_of self.old < MOST_FRAMES }
        requires given_out { due_of self.old ≡ 0 }
        ensures ends { EndsRecord (network_of self.old) (plp_of self.old) self.old.held self.new.held self.old.slots
            self.new.slots }
        ensures status { status_of self.new ≡ record (status_of self.old) {
          frame = frame_of self.old + 1;
          due = due_of self.new;
        } }
    {
        if self.slots.ends_epoch() {
            self.end_epoch();
        } else {
            self.slots.pass();
        }
    }

    // An epoch ends with the next frame: its blocks are taken, if it is there.
    fn end_epoch(&mut self)
        requires small { frame_of self.old < MOST_FRAMES }
        requires given_out { due_of self.old ≡ 0 }
        requires last { ends_epoch self.old.slots ≡ true }
        ensures ends { (parts : Option (List Part)) → is_begun parts ≡ true
            → Holds (network_of self.old) (plp_of self.old) parts self.old.held
            → TellsEpoch (network_of self.old) (plp_of self.old) parts self.old.slots self.new.slots }
        ensures status { status_of self.new ≡ record (status_of self.old) {
          frame = frame_of self.old + 1;
          due = due_of self.new;
        } }
    {
        if self.held.is_there() {
            let deletes = self.network.plan().deletes(self.plp);
            take_epoch(&mut self.slots, &mut self.held, deletes);
        } else {
            self.slots.lose();
        }
    }

    /// How many slots are due and not given out.
    pub fn due(&self) -> u64
        ensures value { result ≡ due_of self.now }
        ensures fresh { IsFresh self.now → result ≡ 0 }
        ensures some { (first : ℕ) (views : List RecordView) (released : ℕ)
            → ReceiverStandsFor self.now first views released
            → (packets : List (List ℕ)) × Readback (network_of self.now) (plp_of self.now) first views packets }
        ensures answer { (first : ℕ) (views : List RecordView) (released : ℕ) (packets : List (List ℕ))
            → ReceiverStandsFor self.now first views released
            → Readback (network_of self.now) (plp_of self.now) first views packets
            → result ≡ length packets - released }
    {
        readback_law();
        self.slots.due()
    }

    /// How many slots are in the window: those that have come into range and were not given out.
    pub fn held(&self) -> u64
        ensures fresh { IsFresh self.now → result ≡ 0 }
        ensures most { result ≤ window (network_of self.now) (plp_of self.now) }
        ensures answer { (first : ℕ) (views : List RecordView) (released : ℕ)
            → ReceiverStandsFor self.now first views released
            → result ≡ slots_come (network_of self.now) (plp_of self.now) first (length views) - released }
    {
        self.slots.held()
    }

    /// The packet of the next slot, if one is due: `false` exactly if none is.
    pub fn release(&mut self, out: &mut [u8; SIZE]) -> bool
        ensures stands { (first : ℕ) (views : List RecordView) (released : ℕ)
            → ReceiverStandsFor self.old first views released
            → ReceiverStandsFor self.new first views (if result then released + 1 else released) }
        ensures answer { result ≡ true → (first : ℕ) (views : List RecordView) (released : ℕ) (packets : List (List ℕ))
            → ReceiverStandsFor self.old first views released
            → Readback (network_of self.old) (plp_of self.old) first views packets
            → slice_get packets released ≡ Some out.new }
        ensures none { result ≡ false → (first : ℕ) (views : List RecordView) (released : ℕ) (packets : List (List ℕ))
            → ReceiverStandsFor self.old first views released
            → Readback (network_of self.old) (plp_of self.old) first views packets → length packets ≤ released }
        ensures fresh { IsFresh self.old → IsFresh self.new }
        ensures exact { result ≡ nat_lt 0 (due_of self.old) }
        ensures kept { result ≡ false → out.new ≡ out.old }
        ensures status { status_of self.new ≡ record (status_of self.old) { due = due_of self.old - 1 } }
    {
        readback_law();
        self.slots.release(out)
    }
}
