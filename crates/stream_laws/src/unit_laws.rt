// Laws of streams. Their functions do nothing.
ghost use Rattle.stream_laws.specs.UnitLaws.{SurvivalLength, ReadAreSurvivors, HonestGroups, HonestNumbers};
ghost use Rattle.stream_laws.specs.UnitLaws.{HonestRecords, KeptHonest, KeptWhole};

use crate::damage_laws::{group_law, near_law, number_law, record_law, whole_law};
use t2mi_stream::{survives_law, survivor_law, undamaged_law};

/// Of each sent packet it is told whether it survives, and what is written of an honest stream is what must come of it.
pub fn honest_law()
    ensures length { SurvivalLength }
    ensures read { ReadAreSurvivors }
    ensures groups { HonestGroups }
    ensures numbers { HonestNumbers }
    ensures records { HonestRecords }
{
    survivor_law();
    group_law();
    number_law();
    record_law();
}

/// A stream of which all units from one on are kept is honest, and a frame is whole whose units are kept.
pub fn kept_law()
    ensures honest { KeptHonest }
    ensures whole { KeptWhole }
{
    survives_law();
    survivor_law();
    undamaged_law();
    near_law();
    whole_law();
}
