// Laws of the definitions. Their functions do nothing.
ghost use Rattle.record_laws.specs.Laws.{FrameLength, BlockStands, OrdinalCounts, CellStands, FewBlocks};
ghost use Rattle.record_laws.specs.Laws.{EveryFrameFits};
ghost use Rattle.record_laws.specs.Laws.{MutedFits, ToldCountsFit};
ghost use Rattle.record_laws.specs.Laws.{FrameFits, AloneLaw, RangeFits, RecordsOnGrid, RecordsFit, AllWhole, NoneLost};
ghost use Rattle.record_laws.specs.Laws.{DueReleased, RecoverAlone};
ghost use Rattle.record_laws.specs.Counted.{CountedLengths, CountedBlocks, CountedStart, CountedPre, CountedPost};
ghost use Rattle.record_laws.specs.Counted.{CountedFrames, CountedRecords, CountedSlots, CountedLoss};

use bb_frame::bit_counts_law;
use cell_map::{map_law, shape_law};
use l1_signal::{post_law, pre_law};
use mode_adapt::{alone_law as alone_blocks_law, count_law};
use plp_config::{block_law, emission_law, length_law, release_law, spread_law};
use scheduler::order_law;

/// How many bytes the record of a frame has.
pub fn frame_law()
    ensures len { FrameLength }
    ensures counted { CountedLengths }
    ensures blocks { CountedBlocks }
    ensures pre { CountedPre }
    ensures post { CountedPost }
    ensures start { CountedStart }
{
    bit_counts_law();
    block_law();
    post_law();
}

/// Each block of a frame stands behind those of the PLPs before its own, and each cell of it at its address.
pub fn stand_law()
    ensures block { BlockStands }
    ensures ordinal { OrdinalCounts }
    ensures cell { CellStands }
{
    length_law();
    block_law();
    count_law();
    order_law();
    shape_law();
    map_law();
}

/// If each interleaving frame is carried by one frame, frames and interleaving frames are the same.
pub fn alone_law()
    ensures { AloneLaw }
{
    stand_law();
    alone_blocks_law();
}

/// What a frame of a plan tells fits its PLPs, every frame fits a record, and so do the records of a run.
pub fn fit_law()
    ensures told { ToldCountsFit }
    ensures few { FewBlocks }
    ensures every { EveryFrameFits }
    ensures muted { MutedFits }
    ensures frame { FrameFits }
    ensures range { RangeFits }
    ensures records { RecordsFit }
{
    bit_counts_law();
    emission_law();
    length_law();
    block_law();
    count_law();
    pre_law();
    post_law();
    order_law();
    shape_law();
    map_law();
}

/// The records of a run are on the grid, and its frames if all are whole.
pub fn record_law()
    ensures grid { RecordsOnGrid }
    ensures whole { AllWhole }
    ensures frames { CountedFrames }
    ensures counted { CountedRecords }
{}

/// Which slots are due, what comes back if nothing is lost, and what does not.
pub fn recover_law()
    ensures due { DueReleased }
    ensures none { NoneLost }
    ensures alone { RecoverAlone }
    ensures slots { CountedSlots }
    ensures loss { CountedLoss }
{
    release_law();
    spread_law();
}
