// The chain of one PLP.
ghost use Rattle.std.specs.Prelude.{◌≡◌, ◌<◌, ◌≤◌, ◌+◌, ◌-◌, ◌*◌, ◌^◌, ◌++◌, ◌∷◌, [], List, ℕ, length};
ghost use Rattle.std.specs.Prelude.{min};
ghost use Rattle.std.specs.Prelude.{vec_len, vec_capacity, IfOk, IfErr, OnOk, OnErr, IfSome};
ghost use Rattle.std.specs.Int.{div_ceil};
ghost use Rattle.terms.specs.Bits.{bits_of};
ghost use Rattle.plp_config.specs.SlotTime.{epoch_ticks};
ghost use Rattle.plp_config.specs.Capacity.{up_bytes, field_bytes};
ghost use Rattle.plp_config.specs.Plps.{plp_at};
ghost use Rattle.bb_frame.specs.BasebandFrame.{header_bits};
ghost use Rattle.bb_frame.specs.declared.header.TheConstants.{HEADER_BYTES};
ghost use Rattle.plp_config.specs.declared.plp.TheConstants.{MOST_FIELD_BYTES};
ghost use Rattle.ts_packet.specs.declared.sizes.TheConstants.{SIZE};
ghost use Rattle.mode_adapt.specs.declared.chain.TheConstants.{MOST_SLOTS};

use crate::block_header::Settings;
use crate::front::drop_front;
use crate::laws::{backlog_law, early_fits_law, within_law};
use crate::waiting::Waiting;
use bb_frame::{HEADER_BYTES, header_bytes};
use bit_slice::OutOfMemory;
use linked_pool::{Pool, PoolFull, plan_fits_law};
use null_delete::{Deleter, decided_by_the_past_law};
use plp_config::{MOST_FIELD_BYTES, Plan, block_law, length_law};
use std::alloc::Global;
use ts_packet::{SIZE, TsPacket};

// User packets that stand whole in a data field and a packet behind it, at most: each has all bytes of a packet but
// one, or more.
const MOST_SLOTS: usize = (MOST_FIELD_BYTES as usize + SIZE) / (SIZE - 1);

/// Makes the blocks of one PLP from its packets, interleaving frame by interleaving frame (EN 302 755, clause 5.1):
/// offer the packet of each slot, in order, and cut where an interleaving frame begins.
#[derive(Drop)]
pub struct Chain {
    settings: Settings,
    deleter: Deleter,
    // The slot of the next packet.
    slot: u64,
    // How many bytes of user packets were put into blocks.
    sent: u64,
    // How many blocks of the next interleaving frame were put.
    made: u32,
    // The bytes that wait for a block.
    pending: Waiting,
    // The slots of the user packets that begin in them.
    slots: Vec<u64>,
    ghost bound: { sent + length pending.items ≤ SIZE * slot },
    ghost small: { slot ≤ 2 ^ 54 },
    ghost few: { made ≤ settings.blocks },
    ghost short: { length pending.items ≤ settings.field_bytes + SIZE },
    ghost starts: { sent + length pending.items ≡ settings.up_bytes * (div_ceil sent settings.up_bytes + vec_len
        slots) },
    ghost bytes: { settings.field_bytes + SIZE ≤ pending.room },
    ghost places: { MOST_SLOTS ≤ vec_capacity slots },
}

impl Chain {
    ghost use Rattle.plp_config.specs.declared.config.Config.{Config};
    ghost use Rattle.linked_pool.specs.Pool.{list_at, Others, IsWhole};
    ghost use Rattle.mode_adapt.specs.Calls.{Takes, Ends, LacksPlace};
    ghost use Rattle.mode_adapt.specs.Events.{Event, Cut, IsDue, offered, cuts};
    ghost use Rattle.mode_adapt.specs.StandsFor.{ChainStandsFor, IsPartial, slot_of, most_blocks, kept_of, waiting};
    ghost use Rattle.mode_adapt.specs.StandsFor.{early_blocks};
    ghost use Rattle.mode_adapt.specs.Place.{AreShort};
    ghost use Rattle.mode_adapt.specs.Steps.{Keeps, Sends, HasSpace, Puts, Stays, IsFull, IsOver, IsLeft, Skips};
    ghost use Rattle.mode_adapt.specs.Steps.{Resets};
    ghost use Rattle.mode_adapt.specs.Steps.{Lacks};
    ghost use Rattle.mode_adapt.specs.Pieces.{first_in, header_by};
    ghost use Rattle.mode_adapt.specs.Blocks.{rates_of, plp_keeps};
    ghost use Rattle.mode_adapt.specs.Queue.{arrived, sent};
    ghost use Rattle.null_delete.specs.Deletion.{packet_at};

    /// A chain of no packets yet, for the PLP at a place of the plan. No later call takes memory.
    #[tactic(auto, unfolding(crate::specs::StandsFor::ChainStandsFor))]
    pub fn open(alloc: Global, plan: &Plan, plp: usize) -> Result<Chain, OutOfMemory>
        requires { plp < length plan.now.plps }
        ensures stands { IfOk result (λ chain. ChainStandsFor chain plan.now plp []) }
        ensures none_put { early_blocks plan.now plp [] ≡ [] }
        ensures slots { IfOk result (λ chain. slot_of chain ≡ 0) }
        ensures kept { IfOk result (λ chain. kept_of chain ≡ 0) }
        ensures most { IfOk result (λ chain. most_blocks chain ≡ (plp_at plan.now.plps plp).blocks) }
    {
        plan.rules_law();
        let settings = Settings::new(plan, plp);
        Ok(Chain {
            settings,
            deleter: Deleter::new(plan.deletes(plp)),
            slot: 0,
            sent: 0,
            made: 0,
            // A data field, and a user packet more.
            pending: Waiting::open(alloc, settings.field_bytes as usize + SIZE)?,
            slots: Vec::with_capacity(alloc, MOST_SLOTS)?,
        })
    }

    /// Takes the packet of the next slot, one that is over by the tick at which the next interleaving frame begins. A
    /// block whose data field is full goes to the end of the list, which holds what the chain put there since its last
    /// cut. After `PoolFull` the chain is used no more.
    pub fn offer(&mut self, packet: &TsPacket, pool: &mut Pool, list: u32) -> Result<(), PoolFull>
        requires slot { slot_of self.old < 2 ^ 54 }
        requires list { list < length pool.old.lists }
        ensures takes { OnOk result (Takes self.old self.new packet.now pool.old pool.new list) }
        ensures short { AreShort (list_at pool.old list) → AreShort (list_at pool.new list) }
        ensures others { Others pool.old pool.new list }

        // There is room for the block if each list of the pool has no more than an interleaving frame.
        ensures lacks { IfErr result (λ e. LacksPlace self.old pool.old list e.need) }
        ensures full { IfErr result (λ e. (e.spare ≡ pool.new.spare) × (e.spare < e.need)) }

        // A data field is full then, and the pool is as it was.
        ensures due { OnErr result ((c : Config) (plp : ℕ) (events : List Event) → ChainStandsFor self.old c plp events
            → field_bytes c plp ≤ kept_of self.new) }
        ensures refused { OnErr result (pool.new ≡ pool.old) }
        ensures whole { IsWhole pool.new }

        ensures bounded { kept_of self.new ≤ MOST_FIELD_BYTES + SIZE }
        ensures slots { slot_of self.new ≡ slot_of self.old + 1 }
        ensures most { most_blocks self.new ≡ most_blocks self.old }
    {
        decided_by_the_past_law();
        block_law();
        length_law();
        within_law();
        backlog_law();
        early_fits_law();
        plan_fits_law();
        let bytes = packet.as_array();
        match self.deleter.push(packet) {
            None => {
                pool.is_whole_law();
                self.skip();
                Ok(())
            }
            Some(dnp) => {
                self.keep(bytes, dnp);
                self.put_full(pool, list)
            }
        }
    }

    // Goes on behind a packet that is deleted.
    fn skip(&mut self)
        requires { self.old.slot < 2 ^ 54 }
        ensures { Skips self.old self.new }
    {
        self.slot += 1;
    }

    // Takes a packet that is kept, if there is room for it.
    fn keep(&mut self, packet: &[u8], dnp: u8)
        requires whole { length packet.now ≡ SIZE }
        requires small { self.old.slot < 2 ^ 54 }
        ensures keeps { HasSpace self.old → Keeps self.old self.new packet.now dnp }
        ensures stays { Stays self.old self.new }
        ensures slot { self.new.slot ≡ self.old.slot + 1 }
    {
        // There is room for every packet whose slot is over by the tick at which the next interleaving frame begins.
        if self.pending.len() > self.settings.field_bytes as usize {
            self.slot += 1;
            return;
        }
        self.pending.add(&packet[1..]);
        if self.settings.up_bytes == SIZE as u32 {
            self.pending.add(&[dnp]);
        }
        self.slots.push(self.slot).unwrap();
        self.slot += 1;
    }

    // Puts a block if its data field is full.
    fn put_full(&mut self, pool: &mut Pool, list: u32) -> Result<(), PoolFull>
        requires list { list < length pool.old.lists }
        ensures none { OnOk result (IsPartial self.old → (self.new ≡ self.old) × (pool.new ≡ pool.old)) }
        ensures some { OnOk result (IsFull self.old → Puts self.old self.new self.old.settings.field_bytes
            (list_at pool.old list)
            (list_at pool.new list)) }
        ensures short { AreShort (list_at pool.old list) → AreShort (list_at pool.new list) }
        ensures others { Others pool.old pool.new list }
        ensures full { IfErr result (λ e. Lacks self.old pool.old e.need e.spare) }
        ensures refused { OnErr result (pool.new ≡ pool.old) }
        ensures due { OnErr result (self.old.settings.field_bytes ≤ kept_of self.new) }
        ensures whole { IsWhole pool.new }
        ensures stays { self.new.settings ≡ self.old.settings }
        ensures slot { self.new.slot ≡ self.old.slot }
    {
        pool.is_whole_law();
        let field_bytes = self.settings.field_bytes as usize;
        if self.made >= u32::from(self.settings.blocks) {
            return Ok(());
        }
        if self.pending.len() < field_bytes {
            return Ok(());
        }
        self.put_block(pool, list)
    }

    // Puts the block of the first bytes of those that wait, a whole data field if there are so many.
    fn put_block(&mut self, pool: &mut Pool, list: u32) -> Result<(), PoolFull>
        requires made { self.old.made < self.old.settings.blocks }
        requires list { list < length pool.old.lists }
        ensures puts { OnOk result (Puts self.old self.new
            (min self.old.settings.field_bytes (length self.old.pending.items)) (list_at pool.old list)
            (list_at pool.new list)) }
        ensures short { AreShort (list_at pool.old list) → AreShort (list_at pool.new list) }
        ensures others { Others pool.old pool.new list }
        ensures full { IfErr result (λ e. Lacks self.old pool.old e.need e.spare) }
        ensures refused { OnErr result (pool.new ≡ pool.old) }
        ensures kept { OnErr result (kept_of self.new ≡ kept_of self.old) }
        ensures whole { IsWhole pool.new }
        ensures stays { self.new.settings ≡ self.old.settings }
        ensures slot { self.new.slot ≡ self.old.slot }
    {
        let field_bytes = self.settings.field_bytes as usize;
        let count = field_bytes.min(self.pending.len());
        let header = self.header(count);
        match self.pending.put_block(&header, field_bytes, pool, list) {
            Ok(()) => {
                self.send(count);
                Ok(())
            }
            Err(full) => Err(full),
        }
    }

    // The header of the block of the first bytes of those that wait.
    fn header(&self, count: usize) -> [u8; HEADER_BYTES]
        requires inside { count ≤ length self.now.pending.items }
        requires short { count ≤ self.now.settings.field_bytes }
        ensures { bits_of result ≡ header_bits (header_by self.now.settings self.now.sent count
            (first_in self.now count)) }
    {
        let up = self.first_up(count);
        header_bytes(&self.settings.header(self.sent, count, up))
    }

    // The place and the slot of the first user packet that begins in the first bytes of those that wait.
    fn first_up(&self, count: usize) -> Option<(u64, u64)>
        requires { count ≤ length self.now.pending.items }
        ensures up { result ≡ first_in self.now count }
        ensures within { IfSome result (λ u. (self.now.sent ≤ u.0) × (u.0 < self.now.sent + count)) }
    {
        let up_bytes = u64::from(self.settings.up_bytes);
        let place = up_bytes * self.sent.div_ceil(up_bytes);
        if place >= self.sent + count as u64 {
            return None;
        }
        let slot = self.slots.first()?;
        Some((place, *slot))
    }

    /// Ends the next interleaving frame: the list then holds exactly its blocks, at most `blocks` of the PLP, and the
    /// answer is their number. The first cut ends interleaving frame 0, which has none. All slots that are over by the
    /// tick at which it begins were offered, and the list holds what the chain put there since its last cut. After
    /// `PoolFull` the chain is used no more.
    pub fn cut(&mut self, pool: &mut Pool, list: u32) -> Result<u32, PoolFull>
        requires { list < length pool.old.lists }
        ensures ends { IfOk result (λ count. Ends self.old self.new pool.old pool.new list count) }
        ensures few { IfOk result (λ count. count ≤ most_blocks self.old) }
        ensures short { AreShort (list_at pool.old list) → AreShort (list_at pool.new list) }
        ensures others { Others pool.old pool.new list }

        // There is room for the block if each list of the pool has no more than an interleaving frame.
        ensures lacks { IfErr result (λ e. LacksPlace self.old pool.old list e.need) }
        ensures full { IfErr result (λ e. (e.spare ≡ pool.new.spare) × (e.spare < e.need)) }

        // Bytes wait then, and the pool is as it was.
        ensures due { OnErr result (0 < kept_of self.new) }
        ensures refused { OnErr result (pool.new ≡ pool.old) }
        ensures whole { IsWhole pool.new }

        ensures bounded { kept_of self.new ≤ MOST_FIELD_BYTES + SIZE }
        ensures slots { slot_of self.new ≡ slot_of self.old }
        ensures most { most_blocks self.new ≡ most_blocks self.old }
    {
        block_law();
        length_law();
        within_law();
        backlog_law();
        early_fits_law();
        plan_fits_law();
        match self.put_rest(pool, list) {
            Ok(()) => Ok(self.end_frame()),
            Err(full) => Err(full),
        }
    }

    // Goes on to the next interleaving frame; the answer is how many blocks this one has.
    fn end_frame(&mut self) -> u32
        ensures made { result ≡ self.old.made }
        ensures resets { Resets self.old self.new }
        ensures few { result ≤ self.old.settings.blocks }
    {
        let made = self.made;
        self.made = 0;
        made
    }

    // Puts a last block, if the interleaving frame has room and bytes wait.
    fn put_rest(&mut self, pool: &mut Pool, list: u32) -> Result<(), PoolFull>
        requires { list < length pool.old.lists }
        ensures none { OnOk result (IsOver self.old → (self.new ≡ self.old) × (pool.new ≡ pool.old)) }
        ensures some { OnOk result (IsLeft self.old → Puts self.old self.new
            (min self.old.settings.field_bytes (length self.old.pending.items)) (list_at pool.old list)
            (list_at pool.new list)) }
        ensures short { AreShort (list_at pool.old list) → AreShort (list_at pool.new list) }
        ensures others { Others pool.old pool.new list }
        ensures full { IfErr result (λ e. Lacks self.old pool.old e.need e.spare) }
        ensures refused { OnErr result (pool.new ≡ pool.old) }
        ensures due { OnErr result (0 < kept_of self.new) }
        ensures whole { IsWhole pool.new }
        ensures stays { self.new.settings ≡ self.old.settings }
        ensures slot { self.new.slot ≡ self.old.slot }
    {
        pool.is_whole_law();
        if self.made >= u32::from(self.settings.blocks) {
            return Ok(());
        }
        if self.pending.len() == 0 {
            return Ok(());
        }
        self.put_block(pool, list)
    }

    // Sends bytes from the front, those of a block.
    fn send(&mut self, count: usize)
        requires inside { count ≤ length self.old.pending.items }
        requires made { self.old.made < self.old.settings.blocks }
        ensures { Sends self.old self.new count }
    {
        let up_bytes = u64::from(self.settings.up_bytes);
        let sent = self.sent + count as u64;
        let begun = sent.div_ceil(up_bytes) - self.sent.div_ceil(up_bytes);
        self.pending.drop_front(count);
        drop_front(&mut self.slots, begun as usize);
        self.sent = sent;
        self.made += 1;
    }

    /// How many bytes of user packets wait for a block. After each cut it is less than one user packet.
    pub fn backlog(&self) -> u32
        ensures kept { result ≡ kept_of self.now }
        ensures answer { (c : Config) (plp : ℕ) (events : List Event) → ChainStandsFor self.now c plp events
            → result ≡ waiting c plp events }
        // After the cut of interleaving frame n: what has arrived by then and is not sent, less than one user packet.
        ensures after_cut { (c : Config) (plp : ℕ) (events : List Event)
            → ChainStandsFor self.now c plp (events ++ Cut ∷ []) → IsDue c plp events
            → result ≡ arrived (rates_of c plp (epoch_ticks c plp)) (plp_keeps c plp (packet_at (offered events)))
            (cuts events)
            - sent (rates_of c plp (epoch_ticks c plp)) (plp_keeps c plp (packet_at (offered events))) (cuts events) }
        ensures few { (c : Config) (plp : ℕ) (events : List Event)
            → ChainStandsFor self.now c plp (events ++ Cut ∷ []) → IsDue c plp events → result < up_bytes c plp }
    {
        block_law();
        length_law();
        within_law();
        backlog_law();
        self.pending.len() as u32
    }
}
