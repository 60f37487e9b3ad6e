// Laws of the definitions. Their functions do nothing.
ghost use Rattle.compare_run.specs.AnswerLaws.{AnswersGrow, KnownBegins, NoneDiffers, CarriesOwn, OthersAreFirst};
ghost use Rattle.compare_run.specs.AnswerLaws.{SameHasNone, BlockIsFirst, SameIsWritten, WrittenIsBegun, SameIsExact};

use bb_frame::{bit_counts_law, scramble_twice_law};
use frame_groups::parts_law;
use l1_signal::{conf_law, dyn_law, post_law, pre_law};
use modulator::due_records_law;
use plp_config::interleaving_law;
use site_frame::reading_law;
use stream_laws::{honest_law, sent_law, stream_law, tests_law, whole_law};

/// What is said of the frames of one number more.
pub fn answers_law()
    ensures { AnswersGrow }
{}

/// What is known by some frames is the beginning of all lines.
pub fn known_law()
    ensures { KnownBegins }
{}

/// If both streams are honest damage of one run, no frame differs.
pub fn none_differs_law()
    ensures { NoneDiffers }
{
    sent_law();
    stream_law();
    tests_law();
    honest_law();
    whole_law();
    interleaving_law();
}

/// If every interleaving frame is carried by one frame, a frame carries the blocks of its own group.
pub fn own_law()
    ensures { CarriesOwn }
{
    interleaving_law();
}

/// Where two lists of blocks differ first; that two whole frames are the same if L1 is and no PLP differs; and that the
/// block that is told of a frame is that of its first PLP that differs.
pub fn plps_law()
    ensures others { OthersAreFirst }
    ensures same { SameHasNone }
    ensures first { BlockIsFirst }
{}

/// A frame that is whole in both streams: its records are the same if it is called the same; and exactly if L1 and the
/// blocks that begin there are the same. If every interleaving frame is carried by one frame, `same` says no less and
/// no more.
pub fn same_law()
    ensures written { SameIsWritten }
    ensures begun { WrittenIsBegun }
    ensures exact { SameIsExact }
{
    bit_counts_law();
    scramble_twice_law();
    parts_law();
    pre_law();
    conf_law();
    dyn_law();
    post_law();
    due_records_law();
    reading_law();
    interleaving_law();
}
