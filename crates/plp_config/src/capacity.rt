// What a block holds, and whether the PLPs fit their frames.
ghost use Rattle.std.specs.Prelude.{◌≡◌, ◌<◌, ◌≤◌, ◌*◌, ◌^◌, ◌↔◌, length, sum_by, IsTrue, MatchOption, IsOk, IfOk};
ghost use Rattle.std.specs.Prelude.{IfErr};
ghost use Rattle.plp_config.specs.FirstFailure.{FindsFailure};
ghost use Rattle.plp_config.specs.Plps.{plp_at};
ghost use Rattle.plp_config.specs.Rules.{AllRules};
ghost use Rattle.plp_config.specs.Capacity.{block_cells, up_bytes, capacity, superframe_room};
ghost use Rattle.plp_config.specs.Capacity.{cell_need};
ghost use Rattle.plp_config.specs.Capacity.{block_parts, block_room, longest_rest, need_of, PlaceFits, AllTests, Lacks};
ghost use Rattle.plp_config.specs.Capacity.{Throughput};
ghost use Rattle.plp_config.specs.Capacity.{CellCount, EvenParts, CellAddresses, RecordLength};
ghost use Rattle.plp_config.specs.SlotTime.{den, epoch_ticks};
ghost use Rattle.plp_config.specs.CapacityTests.{AnswersTest};

use crate::at::{At, Failed};
use crate::config::{
    Config, FIXED_REST, GREATEST_REST, L1_POST_BITS, L1_POST_PLP_BITS, MOST_CELLS,
};
use crate::plan::Plan;
use crate::plp::PlpType;
use crate::rules::Valid;
use crate::values::{
    block_cells, capacity, den, epoch_ticks, frames, num, plp_at, plp_count, spread, sub_slices,
    up_bytes,
};
use thiserror::Error;

/// The first test of the capacity that a configuration fails.
#[derive(Clone, Copy, Debug, PartialEq, Eq, Error)]
#[error("capacity {}{}: {} (need {need}, have {have})", self.failed(), At(self.plp), self.subject())]
pub struct CapacityFault {
    /// The number of the test, from 1.
    pub test: u8,
    /// The first place where it fails, for the tests 1 and 3.
    pub plp: Option<u8>,
    /// What is needed.
    pub need: u64,
    /// What there is.
    pub have: u64,
}

impl CapacityFault {
    fn failed(&self) -> Failed {
        Failed(self.test)
    }

    fn subject(&self) -> &'static str {
        match self.test {
            1 => "the blocks of an interleaving frame must carry the bytes that the stream brings",
            2 => "the cells of a frame must hold all blocks",
            3 => "the frames and sub-slices that carry a block must divide its cells",
            4 => "the cells of a frame must have addresses of 22 bits",
            5 => "the record of a frame must have at most 33554432 bytes behind its head",
            _ => "there is no such test",
        }
    }
}

/// Tries the capacity tests, in their order. A configuration that fails one comes back unchanged.
pub fn fits(valid: Valid) -> Result<Plan, (Valid, CapacityFault)>
    ensures fits { IsOk result ↔ AllTests valid }
    ensures ok { IfOk result (λ plan. plan ≡ valid) }
    ensures same { IfErr result (λ refusal. refusal.0 ≡ valid) }
    ensures fault { IfErr result (λ refusal. Lacks valid refusal.1) }
{
    match first_lack(valid.config()) {
        Some(fault) => Err((valid, fault)),
        None => Ok(Plan::new(valid.into_config())),
    }
}

fn first_lack(config: &Config) -> Option<CapacityFault>
    requires { AllRules config.now }
    ensures { MatchOption result (AllTests config.now) (Lacks config.now) }
{
    throughput_lack(config)
        .or(cell_count_lack(config))
        .or(part_lack(config))
        .or(address_lack(config))
        .or(record_lack(config))
}

fn throughput_lack(config: &Config) -> Option<CapacityFault>
    requires { AllRules config.now }
    ensures { AnswersTest Throughput config.now result }
{
    let plp = first_overload(config)?;
    Some(CapacityFault {
        test: 1,
        plp: Some(plp),
        need: throughput_need(config, usize::from(plp)),
        have: u64::from(capacity(config, usize::from(plp))),
    })
}

// The first PLP whose blocks cannot carry its stream.
fn first_overload(config: &Config) -> Option<u8>
    requires { AllRules config.now }
    ensures { FindsFailure (PlaceFits Throughput config.now) (length config.now.plps) result }
{
    for plp in 0..plp_count(config) {
        if !carries(config, usize::from(plp)) {
            return Some(plp);
        }
    }
    None
}

fn carries(config: &Config, plp: usize) -> bool
    requires rules { AllRules config.now }
    requires configured { plp < length config.now.plps }
    ensures { IsTrue result ↔ PlaceFits Throughput config.now plp }
{
    load(config, plp) <= u64::from(capacity(config, plp)) * num(config)
}

// The bytes of user packets for each interleaving frame, times the numerator of the slot's length.
fn load(config: &Config, plp: usize) -> u64
    requires rules { AllRules config.now }
    requires configured { plp < length config.now.plps }
    ensures { result ≡ up_bytes config.now plp * epoch_ticks config.now plp * den config.now plp }
{
    u64::from(up_bytes(config, plp)) * epoch_ticks(config, plp) * den(config, plp)
}

// The same in bytes, rounded up.
pub(crate) fn throughput_need(config: &Config, plp: usize) -> u64
    requires rules { AllRules config.now }
    requires configured { plp < length config.now.plps }
    ensures { result ≡ need_of Throughput config.now plp }
{
    load(config, plp).div_ceil(num(config))
}

fn cell_count_lack(config: &Config) -> Option<CapacityFault>
    requires { AllRules config.now }
    ensures { AnswersTest CellCount config.now result }
{
    let need = cell_need(config);
    let have = u64::from(config.cells);
    if need <= have {
        return None;
    }
    Some(CapacityFault {
        test: 2,
        plp: None,
        need,
        have,
    })
}

#[tactic(auto, unfolding(crate::specs::Capacity::cell_need))]
fn cell_need(config: &Config) -> u64
    requires { AllRules config.now }
    ensures { result ≡ cell_need config.now }
{
    superframe_need(config).div_ceil(u64::from(frames(config)))
}

fn superframe_need(config: &Config) -> u64
    requires { AllRules config.now }
    ensures value { result ≡ sum_by (superframe_room config.now.frames) config.now.plps }
    ensures small { result < 2 ^ 42 }
{
    let mut need = 0;
    for plp in 0..config.plps.len() {
        need += superframe_room(config, plp);
    }
    need
}

fn superframe_room(config: &Config, plp: usize) -> u64
    requires rules { AllRules config.now }
    requires configured { plp < length config.now.plps }
    ensures value { result ≡ superframe_room config.now.frames (plp_at config.now.plps plp) }
    ensures small { result < 2 ^ 34 }
{
    let interleaving_frames = frames(config) / u32::from(spread(config, plp));
    let plp = plp_at(config, plp);
    u64::from(plp.blocks) * u64::from(plp.block_cells()) * u64::from(interleaving_frames)
}

fn part_lack(config: &Config) -> Option<CapacityFault>
    requires { AllRules config.now }
    ensures { AnswersTest EvenParts config.now result }
{
    let plp = first_uneven(config)?;
    Some(CapacityFault {
        test: 3,
        plp: Some(plp),
        need: u64::from(block_parts(config, usize::from(plp))),
        have: u64::from(block_cells(config, usize::from(plp))),
    })
}

// The first PLP whose blocks have no parts of one length.
fn first_uneven(config: &Config) -> Option<u8>
    requires { AllRules config.now }
    ensures { FindsFailure (PlaceFits EvenParts config.now) (length config.now.plps) result }
{
    for plp in 0..plp_count(config) {
        if !is_even(config, usize::from(plp)) {
            return Some(plp);
        }
    }
    None
}

fn is_even(config: &Config, plp: usize) -> bool
    requires rules { AllRules config.now }
    requires configured { plp < length config.now.plps }
    ensures { IsTrue result ↔ PlaceFits EvenParts config.now plp }
{
    block_cells(config, plp) % block_parts(config, plp) == 0
}

// The parts of a block, one for each frame and sub-slice that carries it.
fn block_parts(config: &Config, plp: usize) -> u32
    requires rules { AllRules config.now }
    requires configured { plp < length config.now.plps }
    ensures value { result ≡ block_parts config.now plp }
    ensures some { 1 ≤ result }
{
    let slices = if plp_at(config, plp).plp_type == PlpType::Type2 {
        sub_slices(config)
    } else {
        1
    };
    u32::from(slices) * u32::from(spread(config, plp))
}

fn address_lack(config: &Config) -> Option<CapacityFault>
    ensures { AnswersTest CellAddresses config.now result }
{
    if config.cells <= MOST_CELLS {
        return None;
    }
    Some(CapacityFault {
        test: 4,
        plp: None,
        need: u64::from(config.cells),
        have: u64::from(MOST_CELLS),
    })
}

fn record_lack(config: &Config) -> Option<CapacityFault>
    requires { AllRules config.now }
    ensures { AnswersTest RecordLength config.now result }
{
    let need = longest_rest(config);
    if need <= GREATEST_REST {
        return None;
    }
    Some(CapacityFault {
        test: 5,
        plp: None,
        need,
        have: GREATEST_REST,
    })
}

// Bytes of a record at most, behind its head: L1 and three counts, the words of the cells, and the blocks.
#[tactic(auto, unfolding(crate::specs::Capacity::longest_rest))]
fn longest_rest(config: &Config) -> u64
    requires { AllRules config.now }
    ensures { result ≡ longest_rest config.now }
{
    let post_bits = L1_POST_BITS + L1_POST_PLP_BITS * u64::from(plp_count(config));
    FIXED_REST + post_bits.div_ceil(8) + word_bytes(config.cells) + block_room(config)
}

// Bytes of the words of so many cells.
fn word_bytes(cells: u32) -> u64
    ensures value { result ≡ 4 * cells }
    ensures small { result < 2 ^ 34 }
{
    4 * u64::from(cells)
}

fn block_room(config: &Config) -> u64
    requires { AllRules config.now }
    ensures value { result ≡ sum_by block_room config.now.plps }
    ensures small { result < 2 ^ 40 }
{
    let mut room = 0;
    for plp in config.plps.as_slice() {
        room += u64::from(plp.blocks) * u64::from(4 + plp.info_bits() / 8);
    }
    room
}
