// A configuration that every layer above can rely on.
ghost use Rattle.std.specs.Prelude.{◌≡◌, ◌-◌, ◌/◌, ◌%◌, ◌^◌, ◌<◌, ◌≤◌, length, IfSome, IfNone};
ghost use Rattle.plp_config.specs.Capacity.{AllTests, Throughput, block_bytes, field_bytes, block_cells, up_bytes};
ghost use Rattle.plp_config.specs.Capacity.{capacity};
ghost use Rattle.plp_config.specs.Capacity.{frame_room, need_of};
ghost use Rattle.plp_config.specs.Emission.{emission};
ghost use Rattle.plp_config.specs.InterleavingFrames.{begin_of, is_first};
ghost use Rattle.plp_config.specs.Places.{IsPlace, HasNoPlace};
ghost use Rattle.plp_config.specs.Plps.{plp_at, is_type2, spread, spread_max};
ghost use Rattle.plp_config.specs.Ranges.{HasRanges};
ghost use Rattle.plp_config.specs.Rules.{AllRules};
ghost use Rattle.plp_config.specs.SlotTime.{IsSlotLength, start, slots_by, epoch_ticks, delay, window};
ghost use Rattle.plp_config.specs.Tables.{subseconds_per_second};

use crate::capacity::throughput_need;
use crate::config::Config;
use crate::gcd::gcd;
use crate::moment::{ISCR_TICKS, Moment, SUPERFRAME_PERIOD};
use crate::plp::{MOST_BLOCK_BYTES, MOST_CAPACITY, MOST_FIELD_BYTES, PlpType};
use crate::slot_times::SlotTimes;
use crate::values;
use std::marker::Model;

/// A configuration that satisfies every rule and every capacity test.
#[derive(Debug, Drop)]
pub struct Plan {
    config: Config,
}

impl Model for Plan {
    ghost use Rattle.plp_config.specs.declared.config.Config.{Config};
    ghost use Rattle.plp_config.specs.Capacity.{IsPlan};

    ghost Value = { Config };

    ghost view = { λ p. p.config };

    ghost invariant = { λ p. IsPlan p.config };
}

impl Plan {
    ghost use Rattle.plp_config.specs.Capacity.{IsPlan};
    ghost use Rattle.plp_config.specs.SlotTimes.{slot_times, AreSlotTimes};

    pub(crate) fn new(config: Config) -> Plan
        requires rules { AllRules config }
        requires tests { AllTests config }
        ensures { result ≡ config }
    {
        Plan { config }
    }

    /// The configuration.
    pub fn config(&self) -> &Config
        ensures value { result.now ≡ self.now }
        ensures plan { IsPlan self.now }
        ensures ranges { HasRanges result.now }
    {
        &self.config
    }

    /// Every plan satisfies every rule and every capacity test. It does nothing.
    pub fn rules_law(&self)
        ensures plan { IsPlan self.now }
        ensures ranges { HasRanges self.now }
    {
        let _ = self.config();
    }

    /// The place of the PLP with an identifier (PLP_ID), `None` if none has it.
    pub fn place_of(&self, id: u8) -> Option<usize>
        ensures some { IfSome result (IsPlace self.now id) }
        ensures small { IfSome result (λ place. place < 255) }
        ensures none { IfNone result (HasNoPlace self.now id) }
    {
        values::place_of(&self.config, id)
    }

    /// The length of a slot of a PLP in ticks, a fraction in lowest terms: its numerator and its
    /// denominator. For people; times are those of [`slot_times`](Self::slot_times).
    pub fn slot_length(&self, plp: usize) -> (u64, u64)
        requires { plp < length self.now.plps }
        ensures { IsSlotLength self.now plp result.0 result.1 }
    {
        let num = values::num(&self.config);
        let den = values::den(&self.config, plp);
        let divisor = gcd(num, den);
        (num / divisor, den / divisor)
    }

    /// The slots of a PLP and its interleaving frames.
    pub fn slot_times(&self, plp: usize) -> SlotTimes
        requires { plp < length self.now.plps }
        ensures times { result ≡ slot_times self.now plp }
        ensures are { AreSlotTimes result }
    {
        values::slot_times(&self.config, plp)
    }

    /// How many slots of a PLP are over by a tick.
    pub fn slots_by(&self, plp: usize, tick: u64) -> u64
        requires { plp < length self.now.plps }
        ensures count { result ≡ slots_by self.now plp tick }
        ensures small { result ≤ tick }
    {
        self.slot_times(plp).slots_by(tick)
    }

    /// The tick at which a slot of a PLP starts.
    pub fn start_of(&self, plp: usize, slot: u64) -> u128
        requires { plp < length self.now.plps }
        ensures start { result ≡ start self.now plp slot }
        ensures small { result < 2 ^ 102 }
    {
        self.slot_times(plp).start_of(slot)
    }

    /// The constant delay of a PLP: the ticks from the start of a slot until its packet is due.
    pub fn delay(&self, plp: usize) -> u64
        requires { plp < length self.now.plps }
        ensures delay { result ≡ delay self.now plp }
        ensures small { result < 2 ^ 39 }
    {
        self.slot_times(plp).delay()
    }

    /// How many slots of a PLP a receiver holds at most.
    pub fn window(&self, plp: usize) -> u64
        requires { plp < length self.now.plps }
        ensures window { result ≡ window self.now plp }
        ensures small { result < 2 ^ 20 }
    {
        let ticks = u64::from(values::ticks(&self.config));
        self.slot_times(plp).window(ticks)
    }

    /// The place of a frame in its superframe: FRAME_IDX (EN 302 755, clause 7.2.3.2).
    pub fn frame_idx(&self, frame: u64) -> u8
        ensures { result ≡ frame % self.now.frames }
    {
        (frame % u64::from(values::frames(&self.config))) as u8
    }

    /// superframe_idx of a frame: the number of its superframe, of which T2-MI tells four bits (TS 102 773, clause
    /// 5.1).
    pub fn superframe_idx(&self, frame: u64) -> u8
        ensures value { result ≡ frame / self.now.frames % 16 }
        ensures small { result < 2 ^ 4 }
    {
        (frame / u64::from(values::frames(&self.config)) % SUPERFRAME_PERIOD) as u8
    }

    /// The frames that carry an interleaving frame of a PLP.
    pub fn spread(&self, plp: usize) -> u32
        requires { plp < length self.now.plps }
        ensures value { result ≡ spread self.now.plps plp }
        ensures least { 1 ≤ result }
        ensures greatest { result ≤ spread_max self.now.plps }
        // whole interleaving frames are in a superframe
        ensures whole { self.now.frames % result ≡ 0 }
    {
        u32::from(values::spread(&self.config, plp))
    }

    /// Whether a frame is the first that carries its interleaving frame of a PLP (EN 302 755, clause 6.5).
    pub fn is_first(&self, plp: usize, frame: u64) -> bool
        requires { plp < length self.now.plps }
        ensures { result ≡ is_first self.now plp frame }
    {
        frame % u64::from(values::spread(&self.config, plp)) == 0
    }

    /// The first frame of the interleaving frame of a PLP that a frame carries.
    pub fn begin_of(&self, plp: usize, frame: u64) -> u64
        requires { plp < length self.now.plps }
        ensures { result ≡ begin_of self.now plp frame }
    {
        frame - frame % u64::from(values::spread(&self.config, plp))
    }

    /// The greatest spread of all PLPs.
    pub fn spread_max(&self) -> u32
        ensures value { result ≡ spread_max self.now.plps }
        ensures least { 1 ≤ result }
        ensures greatest { result ≤ 255 }
    {
        u32::from(values::spread_max(&self.config))
    }

    /// The ticks of an interleaving frame of a PLP.
    pub fn epoch_ticks(&self, plp: usize) -> u64
        requires { plp < length self.now.plps }
        ensures value { result ≡ epoch_ticks self.now plp }
        ensures least { 1000 ≤ result }
        ensures greatest { result < ISCR_TICKS }
    {
        values::epoch_ticks(&self.config, plp)
    }

    /// Cells that the blocks of a PLP fill in a frame, at most.
    pub fn frame_room(&self, plp: usize) -> u32
        requires { plp < length self.now.plps }
        ensures value { result ≡ frame_room (plp_at self.now.plps plp) }
        ensures greatest { result ≤ self.now.cells }
    {
        values::frame_room(&self.config, plp)
    }

    /// PLP_ID of a PLP.
    pub fn plp_id(&self, plp: usize) -> u8
        requires { plp < length self.now.plps }
        ensures { result ≡ (plp_at self.now.plps plp).id }
    {
        self.config.plps.get(plp).unwrap().id
    }

    /// Whether a PLP is of type 2: it has several sub-slices in each frame (EN 302 755, clause 7.2.3.1).
    pub fn is_type2(&self, plp: usize) -> bool
        requires { plp < length self.now.plps }
        ensures value { result ≡ is_type2 (plp_at self.now.plps plp).plp_type }
        ensures plan { IsPlan self.now }
    {
        self.config.plps.get(plp).unwrap().plp_type == PlpType::Type2
    }

    /// Whether the null packets of a PLP are deleted (EN 302 755, clause 5.1.3).
    pub fn deletes(&self, plp: usize) -> bool
        requires { plp < length self.now.plps }
        ensures { result ≡ (plp_at self.now.plps plp).delete }
    {
        self.config.plps.get(plp).unwrap().delete
    }

    /// Bytes of the data field of a block.
    pub fn field_bytes(&self, plp: usize) -> u32
        requires { plp < length self.now.plps }
        ensures value { result ≡ field_bytes self.now plp }
        ensures least { 869 ≤ result }
        ensures greatest { result ≤ MOST_FIELD_BYTES }
    {
        values::field_bytes(&self.config, plp)
    }

    /// Bytes of a block.
    pub fn block_bytes(&self, plp: usize) -> u32
        requires { plp < length self.now.plps }
        ensures value { result ≡ block_bytes self.now plp }
        ensures least { 879 ≤ result }
        ensures greatest { result ≤ MOST_BLOCK_BYTES }
    {
        values::block_bytes(&self.config, plp)
    }

    /// Cells of a block.
    pub fn block_cells(&self, plp: usize) -> u32
        requires { plp < length self.now.plps }
        ensures value { result ≡ block_cells self.now plp }
        ensures least { 2025 ≤ result }
        ensures greatest { result ≤ 32400 }
    {
        values::block_cells(&self.config, plp)
    }

    /// Bytes of the data fields of an interleaving frame, at most.
    pub fn capacity(&self, plp: usize) -> u32
        requires { plp < length self.now.plps }
        ensures value { result ≡ capacity self.now plp }
        ensures least { 869 ≤ result }
        ensures greatest { result ≤ MOST_CAPACITY }
    {
        values::capacity(&self.config, plp)
    }

    /// Bytes of user packets that an interleaving frame brings, rounded up; at most `capacity`.
    pub fn need(&self, plp: usize) -> u64
        requires { plp < length self.now.plps }
        ensures value { result ≡ need_of Throughput self.now plp }
        ensures fits { result ≤ capacity self.now plp }
    {
        throughput_need(&self.config, plp)
    }

    /// Bytes of a user packet: 188 if null packets are deleted, else 187.
    pub fn up_bytes(&self, plp: usize) -> u32
        requires { plp < length self.now.plps }
        ensures value { result ≡ up_bytes self.now plp }
        ensures least { 187 ≤ result }
        ensures greatest { result ≤ 188 }
    {
        values::up_bytes(&self.config, plp)
    }

    /// When a frame leaves.
    #[tactic(auto, unfolding(crate::specs::Emission::emission))]
    pub fn emission(&self, frame: u64) -> Moment
        requires { frame < 2 ^ 32 }
        ensures emission { result ≡ emission self.now frame }
        ensures subseconds { result.subseconds < subseconds_per_second self.now.band }
        // it is neither a relative nor a null timestamp
        ensures seconds { (1 ≤ result.seconds) × (result.seconds < 2 ^ 40 - 1) }
    {
        let second = u64::from(self.config.band.subseconds_per_second());
        let passed = u64::from(self.config.subseconds)
            + frame * values::frame_subseconds(&self.config);
        Moment {
            seconds: self.config.seconds + passed / second,
            subseconds: (passed % second) as u32,
        }
    }
}
