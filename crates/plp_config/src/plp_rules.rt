// The rules of the PLPs, each by the first place where it fails.
ghost use Rattle.std.specs.Prelude.{◌≡◌, ◌<◌, ◌↔◌, length, IsTrue, IsFalse};
ghost use Rattle.plp_config.specs.FirstFailure.{HoldsBelow, FindsFailure};
ghost use Rattle.plp_config.specs.Rules.{PlaceHolds, DistinctIds, TypeOrder, BlockLimit, InterleaverLength, BitRate};
ghost use Rattle.plp_config.specs.Rules.{SpreadDivides, SpreadLength, EpochDuration, OneCommon, CommonRate};
ghost use Rattle.plp_config.specs.Rules.{CommonShared};
ghost use Rattle.plp_config.specs.Rules.{IsCommonOf, IsInStep, HasCompany};
ghost use Rattle.plp_config.specs.declared.plp.PlpType.TheVariants.{Common};

use crate::config::Config;
use crate::moment::ISCR_TICKS;
use crate::plp::{MOST_BLOCKS, Plp, PlpType};

// The first PLP with an identifier that an earlier one has.
pub(crate) fn repeated_id(config: &Config) -> Option<usize>
    ensures { FindsFailure (PlaceHolds DistinctIds config.now) (length config.now.plps) result }
{
    let mut seen = [false; 256];
    for (place, plp) in config.plps.as_slice().iter().enumerate() {
        let id = usize::from(plp.id);
        if seen[id] {
            return Some(place);
        }
        seen[id] = true;
    }
    None
}

// The first PLP behind one of a later kind.
pub(crate) fn falling_type(config: &Config) -> Option<usize>
    ensures { FindsFailure (PlaceHolds TypeOrder config.now) (length config.now.plps) result }
{
    let mut last = 0;
    for (place, plp) in config.plps.as_slice().iter().enumerate() {
        let plp_type = plp.plp_type.number();
        if plp_type < last {
            return Some(place);
        }
        last = plp_type;
    }
    None
}

pub(crate) fn wrong_block_limit(config: &Config) -> Option<usize>
    ensures { FindsFailure (PlaceHolds BlockLimit config.now) (length config.now.plps) result }
{
    config
        .plps
        .as_slice()
        .iter()
        .position(|plp| !(1..=MOST_BLOCKS).contains(&plp.blocks))
}

pub(crate) fn wrong_interleaver_length(config: &Config) -> Option<usize>
    ensures { FindsFailure (PlaceHolds InterleaverLength config.now) (length config.now.plps) result }
{
    config
        .plps
        .as_slice()
        .iter()
        .position(|plp| plp.interleave > plp.blocks.min(255))
}

pub(crate) fn wrong_bit_rate(config: &Config) -> Option<usize>
    ensures { FindsFailure (PlaceHolds BitRate config.now) (length config.now.plps) result }
{
    config
        .plps
        .as_slice()
        .iter()
        .position(|plp| !(1..=72_000_000).contains(&plp.bits_per_second))
}

// The first PLP whose spread does not divide the frames of a superframe.
pub(crate) fn wrong_spread(config: &Config) -> Option<usize>
    ensures { FindsFailure (PlaceHolds SpreadDivides config.now) (length config.now.plps) result }
{
    config.plps.as_slice().iter().position(|plp| plp.spread == 0
        || config.frames % u16::from(plp.spread) != 0)
}

// The first PLP with a spread above 1 and other than one TI-block.
pub(crate) fn wrong_spread_length(config: &Config) -> Option<usize>
    ensures { FindsFailure (PlaceHolds SpreadLength config.now) (length config.now.plps) result }
{
    config
        .plps
        .as_slice()
        .iter()
        .position(|plp| plp.spread > 1 && plp.interleave != 1)
}

// The first PLP of which an ISCR could name two slots of an interleaving frame.
pub(crate) fn wrong_epoch(config: &Config) -> Option<usize>
    ensures { FindsFailure (PlaceHolds EpochDuration config.now) (length config.now.plps) result }
{
    config.plps.as_slice().iter().position(|plp| u64::from(plp.spread) * u64::from(config.ticks)
        >= ISCR_TICKS)
}

// The first common PLP in whose group an earlier one is common.
pub(crate) fn second_common(config: &Config) -> Option<usize>
    ensures { FindsFailure (PlaceHolds OneCommon config.now) (length config.now.plps) result }
{
    for place in 0..config.plps.len() {
        if !is_only_common(config, place) {
            return Some(place);
        }
    }
    None
}

fn is_only_common(config: &Config, place: usize) -> bool
    requires { place < length config.now.plps }
    ensures { IsTrue result ↔ PlaceHolds OneCommon config.now place }
{
    let plp = &config.plps.as_slice()[place];
    plp.plp_type != PlpType::Common || !has_common(config, plp.group, place)
}

// Whether one of the PLPs before a place is the common one of a group.
fn has_common(config: &Config, group: u8, place: usize) -> bool
    requires { place < length config.now.plps }
    ensures { IsFalse result ↔ HoldsBelow (λ earlier. ¬ (IsCommonOf config.now group earlier)) place }
{
    for earlier in 0..place {
        if is_common_of(&config.plps.as_slice()[earlier], group) {
            return true;
        }
    }
    false
}

fn is_common_of(plp: &Plp, group: u8) -> bool
    ensures { IsTrue result ↔ ((plp.now.plp_type ≡ Common) × (plp.now.group ≡ group)) }
{
    plp.plp_type == PlpType::Common && plp.group == group
}

// The first PLP with another rate or spread than a common PLP of its group.
pub(crate) fn wrong_common_rate(config: &Config) -> Option<usize>
    ensures { FindsFailure (PlaceHolds CommonRate config.now) (length config.now.plps) result }
{
    for place in 0..config.plps.len() {
        if !is_in_step(config, place) {
            return Some(place);
        }
    }
    None
}

fn is_in_step(config: &Config, place: usize) -> bool
    requires { place < length config.now.plps }
    ensures { IsTrue result ↔ PlaceHolds CommonRate config.now place }
{
    let plps = config.plps.as_slice();
    for common in 0..plps.len() {
        if is_common_of(&plps[common], plps[place].group)
            && !are_in_step(&plps[place], &plps[common])
        {
            return false;
        }
    }
    true
}

fn are_in_step(a: &Plp, b: &Plp) -> bool
    ensures { IsTrue result ↔ IsInStep a.now b.now }
{
    a.bits_per_second == b.bits_per_second && a.spread == b.spread
}

// The first common PLP with a group of its own.
pub(crate) fn lone_common(config: &Config) -> Option<usize>
    ensures { FindsFailure (PlaceHolds CommonShared config.now) (length config.now.plps) result }
{
    for place in 0..config.plps.len() {
        if !is_shared(config, place) {
            return Some(place);
        }
    }
    None
}

fn is_shared(config: &Config, place: usize) -> bool
    requires { place < length config.now.plps }
    ensures { IsTrue result ↔ PlaceHolds CommonShared config.now place }
{
    config.plps.as_slice()[place].plp_type != PlpType::Common || has_company(config, place)
}

fn has_company(config: &Config, place: usize) -> bool
    requires { place < length config.now.plps }
    ensures { IsTrue result ↔ HasCompany config.now place }
{
    let plps = config.plps.as_slice();
    for other in 0..plps.len() {
        if other != place && plps[other].group == plps[place].group {
            return true;
        }
    }
    false
}
