// Laws of the definitions. Their functions do nothing.
ghost use Rattle.bb_frame.specs.Laws.{WrittenIsSpelled, NoRefusal, SpelledOrRefused, OneRefusal, ScramblesBack};
ghost use Rattle.bb_frame.specs.Laws.{BitCounts};

use bit_slice::crc8_law;

/// What [`crate::write_frame`] appends is a frame that [`crate::read_frame`] reads as it was
/// written, whatever follows it.
pub fn written_is_spelled_law()
    ensures { WrittenIsSpelled }
{}

/// Bits that are a frame are not refused.
pub fn no_refusal_law()
    ensures { NoRefusal }
{
    crc8_law();
}

/// [`crate::HEADER_BITS`] bits or more are a frame or have a refusal.
pub fn spelled_or_refused_law()
    ensures { SpelledOrRefused }
{}

/// Bits have one refusal at most.
pub fn one_refusal_law()
    ensures { OneRefusal }
{}

/// Scrambling twice is scrambling not at all.
pub fn scramble_twice_law()
    ensures { ScramblesBack }
{}

/// How many bits a header, a frame and a scrambled frame have.
pub fn bit_counts_law()
    ensures { BitCounts }
{}
