// Laws of the definitions. Their functions do nothing.
ghost use Rattle.stream_laws.specs.DamageLaws.{GroupsAreFrames, ModulatedIsRecords, WholeTold, WholeIsAll};
ghost use Rattle.stream_laws.specs.DamageLaws.{NotWholeMisses, LaterNear, CarriesAlone, NearTold};
ghost use Rattle.stream_laws.specs.GroupNumbers.{GroupsNumbered};

use frame_groups::next_law;
use plp_config::interleaving_law;

/// If survivors of different frames are apart, the groups are the survivors of those frames that have one.
pub fn group_law()
    ensures { GroupsAreFrames }
{}

/// The records of survivors that are near one another are those that must come.
pub fn record_law()
    ensures { ModulatedIsRecords }
{
    next_law();
}

/// If survivors are near one another, and one of their groups is the join, with the number of its frame, each later
/// group has the number of its frame.
pub fn number_law()
    ensures { GroupsNumbered }
{
    next_law();
}

/// What survives of a whole frame, and of one that is not; and what a frame carries if interleaving frames are single
/// frames.
pub fn whole_law()
    ensures told { WholeTold }
    ensures all { WholeIsAll }
    ensures misses { NotWholeMisses }
    ensures alone { CarriesAlone }
{
    interleaving_law();
}

/// Which packets are near one another: those of which each next one is, and those that are left if only packets at the
/// front are lost.
pub fn near_law()
    ensures told { NearTold }
    ensures later { LaterNear }
{}
