// Laws between the definitions, for the crates above. No function here does anything.
ghost use Rattle.plp_config.specs.Laws.{StartsBefore, StartsFrom, StartsAt, OverBy, NotOverBy, CountReaches};
ghost use Rattle.plp_config.specs.Laws.{StartRises};
ghost use Rattle.plp_config.specs.Laws.{CountRises, NoneAtZero, EndsAfterStart, StartsApart, RangesPartition};
ghost use Rattle.plp_config.specs.Laws.{RangeBounds};
ghost use Rattle.plp_config.specs.Laws.{SpansEpoch, OneSlotPerIscr, IscrFindsSlot, DelayOutlasts, ReleasedFirst};
ghost use Rattle.plp_config.specs.Laws.{ReleasedByFrame};
ghost use Rattle.plp_config.specs.Laws.{ReleasedOld, WindowHolds, EmissionTotal, EmissionsDiffer, EmissionFound};
ghost use Rattle.plp_config.specs.Laws.{EmissionFits};
ghost use Rattle.plp_config.specs.Laws.{FrameCountLeast, OneRuleFails, RefusalFails, RulesDecided, OneTestFails};
ghost use Rattle.plp_config.specs.Laws.{LackFails};
ghost use Rattle.plp_config.specs.Laws.{TestsDecided, SlotLength, FrameTicks, FrameQuarter, FieldRange, BlockBits};
ghost use Rattle.plp_config.specs.Laws.{UserPacketRange, CapacityHoldsUp, CellsByFive, BlockChunks, EpochTicks};
ghost use Rattle.plp_config.specs.Laws.{RoomsFit};
ghost use Rattle.plp_config.specs.Laws.{SpreadDividesFrames, SpreadIsGreatest, CellsInParts, BlocksFit, EpochAlone};
ghost use Rattle.plp_config.specs.Laws.{SoundTimes, SuperframeBegins, BeginsInSuperframe, BeginIsFirst};
ghost use Rattle.plp_config.specs.Laws.{BeginIsLast, BeginByNumber, BeginAlone, FitsAlone};

/// When slots start and when they are over. A count reaches a number exactly if the end of the
/// last slot below it is not after the tick.
pub fn slot_time_law()
    ensures starts_before { StartsBefore }
    ensures starts_from { StartsFrom }
    ensures starts_at { StartsAt }
    ensures over_by { OverBy }
    ensures not_over_by { NotOverBy }
    ensures count_reaches { CountReaches }
    ensures start_rises { StartRises }
    ensures count_rises { CountRises }
    ensures none_at_zero { NoneAtZero }
    ensures ends_after_start { EndsAfterStart }
    ensures starts_apart { StartsApart }
{}

/// The ranges of the epochs: they partition the slots.
pub fn range_law()
    ensures partition { RangesPartition }
    ensures bounds { RangeBounds }
{}

/// An ISCR names one slot of an epoch.
pub fn iscr_law()
    ensures spans { SpansEpoch }
    ensures unique { OneSlotPerIscr }
    ensures found { IscrFindsSlot }
{}

/// The delay of a slot has not passed when two epochs more have ended after the one in which the
/// slot ends.
pub fn delay_law()
    ensures { DelayOutlasts }
{}

/// Which slots are given out by a tick, and how many are held.
pub fn release_law()
    ensures first { ReleasedFirst }
    ensures frame { ReleasedByFrame }
    ensures old { ReleasedOld }
    ensures window { WindowHolds }
{}

/// The moments at which frames leave.
pub fn emission_law()
    ensures total { EmissionTotal }
    ensures differ { EmissionsDiffer }
    ensures found { EmissionFound }
    ensures fits { EmissionFits }
{}

/// The number of frames of a run.
pub fn run_length_law()
    ensures { FrameCountLeast }
{}

/// Which rule or test fails first: exactly one, if not all hold.
pub fn refusal_law()
    ensures one_rule { OneRuleFails }
    ensures rules_fail { RefusalFails }
    ensures rules_decided { RulesDecided }
    ensures one_test { OneTestFails }
    ensures tests_fail { LackFails }
    ensures tests_decided { TestsDecided }
{}

/// The lengths of slots and frames, as the tables and the rules give them.
pub fn length_law()
    ensures slot { SlotLength }
    ensures frame { FrameTicks }
    ensures epoch { EpochTicks }
    ensures times { SoundTimes }
    ensures quarter { FrameQuarter }
{}

/// Interleaving frames: how many frames carry one, and the cells in each.
pub fn spread_law()
    ensures frames { SpreadDividesFrames }
    ensures greatest { SpreadIsGreatest }
    ensures alone { EpochAlone }
    ensures parts { CellsInParts }
    ensures room { RoomsFit }
    ensures blocks { BlocksFit }
{}

/// Where interleaving frames begin.
pub fn interleaving_law()
    ensures superframe { SuperframeBegins }
    ensures inside { BeginsInSuperframe }
    ensures first { BeginIsFirst }
    ensures last { BeginIsLast }
    ensures number { BeginByNumber }
    ensures alone { BeginAlone }
{}

/// The sizes of blocks, as the tables give them.
pub fn block_law()
    ensures field { FieldRange }
    ensures bits { BlockBits }
    ensures user_packet { UserPacketRange }
    ensures capacity { CapacityHoldsUp }
    ensures cells { CellsByFive }
    ensures chunks { BlockChunks }
{}

/// Where each interleaving frame is carried by one frame, the tests of the capacity are those of single frames.
pub fn alone_law()
    ensures { FitsAlone }
{}
