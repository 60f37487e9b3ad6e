// Laws of the definitions. Their functions do nothing.
ghost use Rattle.mode_adapt.specs.Laws.{WithinLaw, BacklogLaw, SentLaw, SentWithin, BeginLaw, EndLaw, PlaceLaw};
ghost use Rattle.mode_adapt.specs.Laws.{FirstLaw};
ghost use Rattle.mode_adapt.specs.Laws.{JoinLaw, CountLaw, BlocksLaw, EarlyFits, BlocksFit, AloneBlocks};

use bb_frame::bit_counts_law;
use null_delete::decided_by_the_past_law;
use plp_config::{block_law, interleaving_law, length_law, slot_time_law};

/// An interleaving frame carries what the stream brings in it, and at least one user packet.
pub fn within_law()
    ensures { WithinLaw }
{
    length_law();
    block_law();
}

/// After each epoch less than one user packet waits.
pub fn backlog_law()
    ensures { BacklogLaw }
{}

/// In epoch 0 nothing is sent, and in each later one what waits, up to the capacity.
pub fn sent_law()
    ensures { SentLaw }
{}

/// What is sent has arrived, and it never falls.
pub fn sent_within_law()
    ensures { SentWithin }
{}

/// A user packet begins in the epoch in which its slot ends.
pub fn begin_law()
    ensures { BeginLaw }
{}

/// It ends there or in the next epoch.
pub fn end_law()
    ensures { EndLaw }
{}

/// The user packet of a kept slot stands at its place in the string.
pub fn place_law()
    ensures { PlaceLaw }
{}

/// The first user packet that begins in a block, by its number.
pub fn first_law()
    ensures { FirstLaw }
{}

/// The data fields of an epoch are together what it sends.
pub fn join_law()
    ensures { JoinLaw }
{}

/// An epoch has no more blocks than make its capacity.
pub fn count_law()
    ensures { CountLaw }
{}

/// The blocks of an interleaving frame follow from the packets of the slots that are over when it begins.
pub fn blocks_law()
    ensures { BlocksLaw }
{
    decided_by_the_past_law();
    length_law();
    block_law();
    slot_time_law();
}

/// A list that holds what a chain put, before a cut or after it, holds no more than an interleaving frame.
pub fn early_fits_law()
    ensures early { EarlyFits }
    ensures blocks { BlocksFit }
{
    bit_counts_law();
    block_law();
    length_law();
}

/// With spread 1 a frame sends the blocks of its interleaving frame, and tells how many they are.
pub fn alone_law()
    ensures { AloneBlocks }
{
    interleaving_law();
}
