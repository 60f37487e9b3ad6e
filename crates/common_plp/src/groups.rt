// The groups of a network, and which PLPs have an input.
ghost use Rattle.std.specs.Prelude.{◌≡◌, ◌<◌, ◌++◌, ◌∷◌, [], length, map, not, IfOk, OnOk, if◌then◌else◌};
ghost use Rattle.std.specs.List.{find};
ghost use Rattle.plp_config.specs.Places.{places};
ghost use Rattle.common_plp.specs.Groups.{is_common, is_common_in, group_of, common_of, input_places};

use bit_slice::OutOfMemory;
use plp_config::{Config, Plan, PlpType};
use std::alloc::Global;
use std::marker::Model;

/// Whether the PLP at a place is the common one of its group.
pub fn is_common(config: &Config, place: usize) -> bool
    requires { place < length config.now.plps }
    ensures { result ≡ is_common config.now place }
{
    config.plps.get(place).unwrap().plp_type == PlpType::Common
}

// The group of the PLP at a place.
fn group_of(config: &Config, place: usize) -> u8
    requires { place < length config.now.plps }
    ensures { result ≡ group_of config.now place }
{
    config.plps.get(place).unwrap().group
}

// Whether the PLP at a place is the common one of a group.
fn is_common_in(config: &Config, group: u8, place: usize) -> bool
    requires { place < length config.now.plps }
    ensures { result ≡ is_common_in config.now group place }
{
    is_common(config, place) && group_of(config, place) == group
}

// The common PLP of a group.
fn common_in(config: &Config, group: u8) -> Option<usize>
    ensures { result ≡ find (is_common_in config.now group) (places config.now) }
{
    for place in 0..config.plps.len() {
        if is_common_in(config, group, place) {
            return Some(place);
        }
    }
    None
}

/// The common PLP of the group of a PLP, if it has one and is not that one.
pub fn common_of(config: &Config, plp: usize) -> Option<usize>
    requires { plp < length config.now.plps }
    ensures { result ≡ common_of config.now plp }
{
    if is_common(config, plp) {
        return None;
    }
    common_in(config, group_of(config, plp))
}

// That of each PLP.
#[tactic(auto, using(crate::proofs::PlaceLemmas::made_more))]
fn commons_of(alloc: Global, config: &Config) -> Result<Vec<Option<usize>>, OutOfMemory>
    ensures { IfOk result (λ commons. commons.items ≡ map (common_of config.now) (places config.now)) }
{
    let mut commons = Vec::new(alloc);
    for plp in 0..config.plps.len() {
        commons.push(common_of(config, plp))?;
    }
    Ok(commons)
}

// One PLP more, if it is not common.
fn add_input(config: &Config, plp: usize, inputs: &mut Vec<usize>) -> Result<(), OutOfMemory>
    requires { plp < length config.now.plps }
    ensures { OnOk result (inputs.new.items ≡ inputs.old.items ++ (if not (is_common config.now plp)
        then plp ∷ [] else [])) }
{
    if !is_common(config, plp) {
        inputs.push(plp)?;
    }
    Ok(())
}

// The PLPs that are not common.
#[tactic(auto, using(crate::proofs::PlaceLemmas::kept_more))]
fn inputs_of(alloc: Global, config: &Config) -> Result<Vec<usize>, OutOfMemory>
    ensures { IfOk result (λ inputs. inputs.items ≡ input_places config.now) }
{
    let mut inputs = Vec::new(alloc);
    for plp in 0..config.plps.len() {
        add_input(config, plp, &mut inputs)?;
    }
    Ok(inputs)
}

/// The groups of a network: which PLP is the common one of another's group, and which PLPs have an input.
#[derive(Debug, Drop)]
pub struct Groups {
    // The common PLP of the group of each PLP, if there is one and it is not that PLP.
    commons: Vec<Option<usize>>,
    // The places of the PLPs that are not common.
    inputs: Vec<usize>,
}

impl Model for Groups {
    ghost use Rattle.common_plp.specs.Groups.{Grouping};

    ghost Value = { Grouping };

    ghost view = { λ g. record { commons = g.commons.items; inputs = g.inputs.items } };
}

impl Groups {
    ghost use Rattle.std.specs.Prelude.{◌≡◌, ◌<◌, length, IfOk, slice_index, slice_index_or, None};
    ghost use Rattle.plp_config.specs.declared.config.Config.{Config};
    ghost use Rattle.common_plp.specs.Groups.{grouping_of};

    /// The groups of a plan.
    #[tactic(auto, unfolding(crate::specs::Groups::grouping_of))]
    pub fn open(alloc: Global, plan: &Plan) -> Result<Groups, OutOfMemory>
        ensures { IfOk result (λ g. g ≡ grouping_of plan.now) }
    {
        let config = plan.config();
        Ok(Groups {
            commons: commons_of(alloc, config)?,
            inputs: inputs_of(alloc, config)?,
        })
    }

    /// The common PLP of the group of a PLP: `None` exactly if the group has none, or this is it.
    #[tactic(auto, using(crate::proofs::GroupLemmas::common_told))]
    pub fn common_of(&self, plp: usize) -> Option<usize>
        requires { plp < length self.now.commons }
        ensures value { result ≡ slice_index_or self.now.commons plp None }
        ensures answer { (c : Config) → self.now ≡ grouping_of c → result ≡ common_of c plp }
    {
        self.commons[plp]
    }

    /// How many PLPs have an input: those that are not common.
    #[tactic(auto, using(crate::proofs::GroupLemmas::count_told))]
    pub fn inputs(&self) -> usize
        ensures value { result ≡ length self.now.inputs }
        ensures answer { (c : Config) → self.now ≡ grouping_of c → result ≡ length (input_places c) }
    {
        self.inputs.len()
    }

    /// The PLP of an input, both counted from 0: the inputs belong to the PLPs that are not common, in configuration
    /// order.
    #[tactic(auto, using(crate::proofs::GroupLemmas::place_told))]
    pub fn place(&self, input: usize) -> usize
        requires { input < length self.now.inputs }
        ensures value { result ≡ slice_index self.now.inputs input }
        ensures answer { (c : Config) → self.now ≡ grouping_of c → result ≡ slice_index (input_places c) input }
    {
        self.inputs[input]
    }
}
