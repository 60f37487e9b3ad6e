// A law of the definitions. Its function does nothing.
ghost use Rattle.open_group.specs.Laws.{RecordSpelled};

use crate::writer_laws::written_law;
use bb_frame::bit_counts_law;
use frame_groups::map_test_law;
use l1_signal::dyn_law;
use record_laws::fit_law;
use site_frame::writing_law;

/// The bytes of a record spell it.
pub fn record_law()
    ensures { RecordSpelled }
{
    bit_counts_law();
    fit_law();
    map_test_law();
    dyn_law();
    written_law();
    writing_law();
}
