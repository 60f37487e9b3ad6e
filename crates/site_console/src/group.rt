// Whether the PLP of a receiver is of a group with a common PLP, looked at again for people.
use crate::config_place::config_again;
use desk_watch::Shown;
use plp_config::{Config, Plp, PlpType};
use std::fs::Files;
use std::io::{self, Eprint};

fn plp_with(config: &Config, plp_id: u8) -> Option<&Plp> {
    for place in 0..config.plps.len() {
        let plp = config.plps.get(place)?;
        if plp.id == plp_id {
            return Some(plp);
        }
    }
    None
}

// The identifier of the common PLP of the group of a PLP that is not that one: a group has one at most.
fn common_id(config: &Config, plp_id: u8) -> Option<u8> {
    let own = plp_with(config, plp_id)?;
    for place in 0..config.plps.len() {
        let plp = config.plps.get(place)?;
        if plp.group == own.group && plp.plp_type == PlpType::Common && plp.id != own.id {
            return Some(plp.id);
        }
    }
    None
}

/// Says that the packets of a common PLP belong to those of a PLP, if it has one.
pub fn say_common(
    rt: &(impl Eprint + Files + AllocGlobal),
    name: &str,
    plp_id: u8,
) -> io::Result<()> {
    let Some(config) = config_again(rt, name) else {
        return Ok(());
    };
    match common_id(&config, plp_id) {
        Some(common) => eprintln!(rt;
            "{}: PLP {common} is the common PLP of the group of PLP {plp_id}: `common receive` puts its packets in",
            Shown(name)
        ),
        None => Ok(()),
    }
}
