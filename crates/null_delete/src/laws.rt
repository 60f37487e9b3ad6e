// Laws of the definitions. Their functions do nothing.
ghost use Rattle.null_delete.specs.Laws.{NextKept, FirstKept, WithoutDeletion, SlotsRestored, DnpFits};
ghost use Rattle.null_delete.specs.Laws.{DecidedByThePast, RunLaw};

/// Each kept slot is the kept slot before it plus 1 plus its own dnp.
pub fn next_kept_law()
    ensures { NextKept }
{}

/// The first kept slot is its own dnp.
pub fn first_kept_law()
    ensures { FirstKept }
{}

/// With deletion off each slot is kept, and its dnp is 0.
pub fn without_deletion_law()
    ensures { WithoutDeletion }
{}

/// The dnps of the kept slots lead from the first of them to all others.
pub fn slots_restored_law()
    ensures { SlotsRestored }
{}

/// A dnp fits a byte.
pub fn dnp_fits_law()
    ensures { DnpFits }
{}

/// The packets that come later decide nothing.
pub fn decided_by_the_past_law()
    ensures { DecidedByThePast }
{}

/// The run of slots before the next one goes on or ends.
pub fn run_law()
    ensures { RunLaw }
{}
