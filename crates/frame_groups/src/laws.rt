// Laws of the definitions. Their functions do nothing.
ghost use Rattle.frame_groups.specs.Due.{RecordsAreDue};
ghost use Rattle.frame_groups.specs.Laws.{GroupsAreRuns, NextIsLeast, NextIsFound, NumbersFollow, ModulatedFront};

/// Groups are the longest runs of packets with one key.
pub fn groups_law()
    ensures { GroupsAreRuns }
{}

/// The number of a group is the least that has its key.
pub fn next_law()
    ensures least { NextIsLeast }
    ensures found { NextIsFound }
{}

/// Records have one number after another.
pub fn numbers_law()
    ensures { NumbersFollow }
{}

/// What follows changes no record but the last.
pub fn front_law()
    ensures { ModulatedFront }
{}

/// The record that waits is the next of those that are due, and if none waits all were given.
pub fn due_law()
    ensures { RecordsAreDue }
{}
