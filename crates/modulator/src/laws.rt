// Laws of the definitions. Their functions do nothing.
ghost use Rattle.modulator.specs.Laws.{DueFront, DueFollow, DuePass, DueSpelled};

use frame_groups::{front_law, numbers_law};
use open_group::record_law;
use t2mi_stream::accepted_front_law;

/// The records that are due are a front of those that are due by more bytes, have one number after another, pass the
/// tests if they are not muted, and are spelled by their bytes.
pub fn due_records_law()
    ensures front { DueFront }
    ensures follow { DueFollow }
    ensures pass { DuePass }
    ensures spelled { DueSpelled }
{
    accepted_front_law();
    front_law();
    numbers_law();
    record_law();
}
