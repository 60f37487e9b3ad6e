// Laws of the definitions. Their functions do nothing.
ghost use Rattle.feed_merge.specs.Laws.{PicksAreFrames, PicksGrow};

use stream_laws::{frame_law, honest_law, sent_law, stream_law, tests_law};

/// If both feeds are honest damage of one run, each picked frame is that of the run.
pub fn picks_law()
    ensures { PicksAreFrames }
{
    sent_law();
    stream_law();
    tests_law();
    frame_law();
    honest_law();
}

/// The picked frames of the records of one number more.
pub fn grow_law()
    ensures { PicksGrow }
{}
