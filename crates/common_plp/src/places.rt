// The places of PLPs that are not common.
ghost use Rattle.std.specs.Prelude.{◌≡◌, IfSome, IfNone};
ghost use Rattle.common_plp.specs.Inputs.{commons};
ghost use Rattle.common_plp.specs.Places.{IsOwnPlace, HasNoOwnPlace};

use crate::groups::is_common;
use plp_config::{Config, Plan};

/// The place of the PLP with an identifier (PLP_ID), if that is not common; `None` if no such PLP has it.
#[tactic(auto, using(crate::proofs::OwnLemmas::none_own, crate::proofs::OwnLemmas::common_alone, crate::proofs::OwnLemmas::own_here))]
pub fn own_place_of(plan: &Plan, id: u8) -> Option<usize>
    ensures some { IfSome result (IsOwnPlace plan.now id) }
    ensures none { IfNone result (HasNoOwnPlace plan.now id) }
{
    let plp = plan.place_of(id)?;
    if is_common(plan.config(), plp) {
        return None;
    }
    Some(plp)
}

/// How many common PLPs stand before all others: in a plan, all that there are.
pub fn commons(config: &Config) -> usize
    ensures { result ≡ commons config.now.plps }
{
    for place in 0..config.plps.len() {
        if !is_common(config, place) {
            return place;
        }
    }
    config.plps.len()
}
