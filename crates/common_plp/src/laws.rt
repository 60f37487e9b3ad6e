// Laws of the definitions. Their functions do nothing.
ghost use Rattle.common_plp.specs.Laws.{SplitFront, SplitSlot, SplitLength, JoinedAgain, JoinedSlots, GroupingTold};
ghost use Rattle.common_plp.specs.Laws.{InStep};

/// What goes in each PLP: slot by slot, how many slots, and that its first slots follow from the first slots of the
/// inputs.
pub fn split_law()
    ensures front { SplitFront }
    ensures slot { SplitSlot }
    ensures length { SplitLength }
{}

/// What goes in a PLP and in the common one of its group gives its packets again; and two streams together, slot by
/// slot.
pub fn join_law()
    ensures again { JoinedAgain }
    ensures slots { JoinedSlots }
{}

/// What is told of the groups of a network is told of each of its PLPs; a PLP and the common one of its group keep
/// step.
pub fn groups_law()
    ensures told { GroupingTold }
    ensures step { InStep }
{}
