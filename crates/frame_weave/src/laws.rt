// Laws of the definitions. Their function does nothing.
ghost use Rattle.frame_weave.specs.Laws.{StoodIsPlaced, PlacedIsOfFrame};

/// Blocks that came of a frame, fewer than 256 places apart, are placed where they stood in it; and blocks that are all
/// of one frame agree with it.
pub fn placed_law()
    ensures stood { StoodIsPlaced }
    ensures frame { PlacedIsOfFrame }
{}
