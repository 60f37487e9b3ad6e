// A law of the definitions. Its function does nothing.
ghost use Rattle.network_laws.specs.Merged.{MergedComesBack};

use frame_groups::named_law;
use modulator::due_records_law;
use stream_laws::{arrive_law, remade_law};

/// If the frames are spaced that are picked of two streams, what comes of their packets runs from the first to the
/// last: each of them that is complete, and every other number muted.
pub fn merge_law()
    ensures { MergedComesBack }
{
    due_records_law();
    named_law();
    arrive_law();
    remade_law();
}
