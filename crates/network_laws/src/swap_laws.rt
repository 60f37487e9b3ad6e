// Laws of the definitions. Their functions do nothing.
ghost use Rattle.network_laws.specs.Region.{FrameIsReplaced, RegionIsOfRun, RegionComesBack, WholeIsReplaced};

use l1_signal::{dyn_law, post_law};
use record_laws::fit_law;
use scheduler::{field_law, order_law};
use stream_laws::{
    again_law, arrive_law, frame_law, honest_law, remade_law, run_law, sent_law, stream_law,
    tests_law, undamaged_law,
};

/// A frame of a run with a PLP replaced is that frame of the run with the other input.
pub fn replaced_law()
    ensures { FrameIsReplaced }
{
    dyn_law();
    post_law();
    fit_law();
    field_law();
    order_law();
}

/// If damage is honest, the frames that are sent are those of the run with the other input that are whole.
pub fn region_law()
    ensures { RegionIsOfRun }
{
    replaced_law();
    sent_law();
    stream_law();
    tests_law();
    frame_law();
    honest_law();
}

/// If these frames are spaced, what comes of their packets runs from the first to the last: each that is complete, and
/// every other number muted.
pub fn back_law()
    ensures { RegionComesBack }
{
    sent_law();
    tests_law();
    frame_law();
    arrive_law();
    remade_law();
}

/// Of a whole stream, if the run with the other input has as many frames, what is sent are the packets that the gateway
/// sends of it.
pub fn whole_region_law()
    ensures { WholeIsReplaced }
{
    region_law();
    sent_law();
    undamaged_law();
    run_law();
    again_law();
}
