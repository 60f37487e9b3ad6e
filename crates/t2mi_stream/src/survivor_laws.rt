// Laws of what is accepted, and of the sent packets that survive (ETSI TS 102 773, clause 6). Their functions do
// nothing.
ghost use Rattle.t2mi_stream.specs.SurvivorLaws.{AcceptedStand, PlacesRise, AcceptedSurvive, SurvivalTold};
ghost use Rattle.t2mi_stream.specs.SurvivorLaws.{KeptUndamaged};

use crate::grammar::grammar;
use crate::laws::survives_law;
use ts_packet::{fields_told_law, payload_last_law, written_spells_law};

/// An accepted packet stands at a start of a run.
pub fn stand_law()
    ensures { AcceptedStand }
{}

/// The places of accepted packets rise.
pub fn rise_law()
    ensures { PlacesRise }
{
    grammar();
}

/// If every accepted packet is a sent one at its place, the accepted packets are, in order, the sent ones that survive;
/// and which these are, is told by their numbers.
pub fn survivor_law()
    ensures survive { AcceptedSurvive }
    ensures told { SurvivalTold }
{
    grammar();
    rise_law();
}

/// If all units from one on are kept, every accepted packet is a sent one at its place, and exactly the packets that
/// begin in these units survive.
pub fn undamaged_law()
    ensures { KeptUndamaged }
{
    grammar();
    survives_law();
    survivor_law();
    written_spells_law();
    fields_told_law();
    payload_last_law();
}
