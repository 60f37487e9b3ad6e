// Laws of the definitions. Their functions do nothing.
ghost use Rattle.open_group.specs.WriterLaws.{RecordWritten, MutedWritten, EmptyIsShort, AppendedIsShort, BlockCount};
ghost use Rattle.open_group.specs.WriterLaws.{RestLength, RecordFits};

use l1_signal::{post_law, pre_law};
use plp_config::block_law;
use record_laws::fit_law;
use site_frame::writing_law;

/// What is written of a frame is its record, which has so many blocks and so many bytes behind its head. That of a plan
/// spells the frame.
pub fn written_law()
    ensures written { RecordWritten }
    ensures muted { MutedWritten }
    ensures blocks { BlockCount }
    ensures rest { RestLength }
    ensures fits { RecordFits }
{
    writing_law();
    pre_law();
    post_law();
    block_law();
    fit_law();
}

/// Blocks in the lists of a pool stay short.
pub fn short_law()
    ensures empty { EmptyIsShort }
    ensures appended { AppendedIsShort }
{}
