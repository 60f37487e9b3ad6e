// The values of a configuration that satisfies the rules, with the ranges that follow from these.
ghost use Rattle.std.specs.Prelude.{◌≡◌, ◌<◌, ◌≤◌, ◌*◌, length, IfSome, IfNone};
ghost use Rattle.plp_config.specs.Capacity.{block_bytes, field_bytes, block_cells, up_bytes, capacity, frame_room};
ghost use Rattle.plp_config.specs.Emission.{frame_subseconds};
ghost use Rattle.plp_config.specs.Places.{IsPlace, HasNoPlace};
ghost use Rattle.plp_config.specs.Plps.{plp_at, spread, spread_max};
ghost use Rattle.plp_config.specs.Rules.{AllRules};
ghost use Rattle.plp_config.specs.SlotTime.{num, den, epoch_ticks};
ghost use Rattle.plp_config.specs.SlotTimes.{slot_times, AreSlotTimes};
ghost use Rattle.plp_config.specs.Tables.{subseconds_per_second, subseconds_per_tick};

use crate::config::Config;
use crate::moment::ISCR_TICKS;
use crate::plp::{MOST_BLOCK_BYTES, MOST_BLOCKS, MOST_CAPACITY, MOST_FIELD_BYTES, Plp};
use crate::slot_times::SlotTimes;

// The duration of a frame in ticks.
pub(crate) fn ticks(config: &Config) -> u32
    requires { AllRules config.now }
    ensures value { result ≡ config.now.ticks }
    ensures least { 1000 ≤ result }
    ensures greatest { result ≤ 2857142 }
    // 250 ms at most
    ensures quarter { 4 * result * subseconds_per_tick config.now.band ≤ subseconds_per_second config.now.band }
{
    config.ticks
}

// The frames of a superframe.
pub(crate) fn frames(config: &Config) -> u32
    requires { AllRules config.now }
    ensures value { result ≡ config.now.frames }
    ensures least { 2 ≤ result }
    ensures greatest { result ≤ 255 }
{
    u32::from(config.frames)
}

// The frames that carry an interleaving frame of a PLP.
pub(crate) fn spread(config: &Config, plp: usize) -> u8
    requires rules { AllRules config.now }
    requires configured { plp < length config.now.plps }
    ensures value { result ≡ spread config.now.plps plp }
    ensures least { 1 ≤ result }
{
    plp_at(config, plp).spread
}

// The greatest spread.
pub(crate) fn spread_max(config: &Config) -> u8
    requires { AllRules config.now }
    ensures value { result ≡ spread_max config.now.plps }
    ensures least { 1 ≤ result }
{
    greatest_spread(config.plps.as_slice())
}

// The greatest spread of some PLPs.
#[tactic(auto, unfolding(crate::specs::Plps::spread_max), using(crate::proofs::SpreadLemmas::spread_max_more))]
fn greatest_spread(plps: &[Plp]) -> u8
    ensures { result ≡ spread_max plps.now }
{
    let mut greatest = 0;
    for plp in plps {
        if plp.spread > greatest {
            greatest = plp.spread;
        }
    }
    greatest
}

// Cells that the blocks of a PLP fill in a frame, at most.
pub(crate) fn frame_room(config: &Config, plp: usize) -> u32
    requires rules { AllRules config.now }
    requires configured { plp < length config.now.plps }
    ensures value { result ≡ frame_room (plp_at config.now.plps plp) }
{
    let plp = plp_at(config, plp);
    u32::from(plp.blocks) * plp.block_cells() / u32::from(plp.spread)
}

// The slots of a PLP and its interleaving frames.
pub(crate) fn slot_times(config: &Config, plp: usize) -> SlotTimes
    requires rules { AllRules config.now }
    requires configured { plp < length config.now.plps }
    ensures times { result ≡ slot_times config.now plp }
    ensures are { AreSlotTimes result }
{
    SlotTimes {
        num: num(config),
        den: den(config, plp),
        epoch: epoch_ticks(config, plp),
    }
}

// The ticks of an interleaving frame of a PLP.
pub(crate) fn epoch_ticks(config: &Config, plp: usize) -> u64
    requires rules { AllRules config.now }
    requires configured { plp < length config.now.plps }
    ensures value { result ≡ epoch_ticks config.now plp }
    ensures least { 1000 ≤ result }
    ensures greatest { result < ISCR_TICKS }
{
    u64::from(spread(config, plp)) * u64::from(ticks(config))
}

// The subseconds of a frame: a quarter of a second at most.
pub(crate) fn frame_subseconds(config: &Config) -> u64
    requires { AllRules config.now }
    ensures value { result ≡ frame_subseconds config.now }
    ensures quarter { 4 * result ≤ subseconds_per_second config.now.band }
{
    u64::from(ticks(config)) * u64::from(config.band.subseconds_per_tick())
}

// The number of PLPs.
pub(crate) fn plp_count(config: &Config) -> u8
    requires { AllRules config.now }
    ensures value { result ≡ length config.now.plps }
    ensures least { 1 ≤ result }
{
    config.plps.len() as u8
}

// The first PLP with an identifier.
pub(crate) fn first_with(config: &Config, id: u8) -> Option<usize>
    ensures some { IfSome result (λ place. (place < length config.now.plps)
        × ((plp_at config.now.plps place).id ≡ id)) }
    ensures none { IfNone result (HasNoPlace config.now id) }
{
    for place in 0..config.plps.len() {
        if config.plps.get(place).unwrap().id == id {
            return Some(place);
        }
    }
    None
}

// The place of the PLP with an identifier.
pub(crate) fn place_of(config: &Config, id: u8) -> Option<usize>
    requires { AllRules config.now }
    ensures some { IfSome result (IsPlace config.now id) }
    ensures small { IfSome result (λ place. place < 255) }
    ensures none { IfNone result (HasNoPlace config.now id) }
{
    let _count = plp_count(config);
    first_with(config, id)
}

// Sub-slices in a frame.
pub(crate) fn sub_slices(config: &Config) -> u16
    requires { AllRules config.now }
    ensures value { result ≡ config.now.sub_slices }
    ensures least { 1 ≤ result }
    ensures greatest { result ≤ 6480 }
{
    config.sub_slices
}

// The length of a slot in ticks is a fraction. Its numerator: 1504 bits, in subseconds.
#[tactic(auto, unfolding(crate::specs::SlotTime::num))]
pub(crate) fn num(config: &Config) -> u64
    ensures value { result ≡ num config.now }
    ensures least { 1 ≤ result }
    ensures greatest { result ≤ 197024000000 }
{
    1_504 * u64::from(config.band.subseconds_per_second())
}

// Its denominator.
#[tactic(auto, unfolding(crate::specs::SlotTime::num, crate::specs::SlotTime::den))]
pub(crate) fn den(config: &Config, plp: usize) -> u64
    requires rules { AllRules config.now }
    requires configured { plp < length config.now.plps }
    ensures value { result ≡ den config.now plp }
    ensures least { 1 ≤ result }
    ensures greatest { result ≤ 5112000000 }
    // a slot lasts 38 ticks or more
    ensures long { 38 * result ≤ num config.now }
{
    u64::from(plp_at(config, plp).bits_per_second) * u64::from(config.band.subseconds_per_tick())
}

pub(crate) fn plp_at(config: &Config, plp: usize) -> &Plp
    requires rules { AllRules config.now }
    requires configured { plp < length config.now.plps }
    ensures value { result.now ≡ plp_at config.now.plps plp }
    ensures blocks { (1 ≤ result.now.blocks) × (result.now.blocks ≤ MOST_BLOCKS) }
    ensures rate { (1 ≤ result.now.bits_per_second) × (result.now.bits_per_second ≤ 72000000) }
    ensures spread { 1 ≤ result.now.spread }
{
    &config.plps.as_slice()[plp]
}

#[tactic(auto, unfolding(crate::specs::Capacity::block_bytes))]
pub(crate) fn block_bytes(config: &Config, plp: usize) -> u32
    requires rules { AllRules config.now }
    requires configured { plp < length config.now.plps }
    ensures value { result ≡ block_bytes config.now plp }
    ensures least { 879 ≤ result }
    ensures greatest { result ≤ MOST_BLOCK_BYTES }
{
    plp_at(config, plp).info_bits() / 8
}

#[tactic(auto, unfolding(crate::specs::Capacity::field_bytes))]
pub(crate) fn field_bytes(config: &Config, plp: usize) -> u32
    requires rules { AllRules config.now }
    requires configured { plp < length config.now.plps }
    ensures value { result ≡ field_bytes config.now plp }
    ensures least { 869 ≤ result }
    ensures greatest { result ≤ MOST_FIELD_BYTES }
{
    block_bytes(config, plp) - 10
}

#[tactic(auto, unfolding(crate::specs::Capacity::block_cells))]
pub(crate) fn block_cells(config: &Config, plp: usize) -> u32
    requires rules { AllRules config.now }
    requires configured { plp < length config.now.plps }
    ensures value { result ≡ block_cells config.now plp }
    ensures least { 2025 ≤ result }
    ensures greatest { result ≤ 32400 }
{
    plp_at(config, plp).block_cells()
}

#[tactic(auto, unfolding(crate::specs::Capacity::up_bytes))]
pub(crate) fn up_bytes(config: &Config, plp: usize) -> u32
    requires rules { AllRules config.now }
    requires configured { plp < length config.now.plps }
    ensures value { result ≡ up_bytes config.now plp }
    ensures least { 187 ≤ result }
    ensures greatest { result ≤ 188 }
{
    if plp_at(config, plp).delete { 188 } else { 187 }
}

#[tactic(auto, unfolding(crate::specs::Capacity::capacity))]
pub(crate) fn capacity(config: &Config, plp: usize) -> u32
    requires rules { AllRules config.now }
    requires configured { plp < length config.now.plps }
    ensures value { result ≡ capacity config.now plp }
    ensures least { 869 ≤ result }
    ensures greatest { result ≤ MOST_CAPACITY }
{
    u32::from(plp_at(config, plp).blocks) * field_bytes(config, plp)
}
