//! Laws of the definitions: functions with nothing to do, whose contracts say what holds.
ghost use Rattle.bit_slice.specs.Laws.{CrcIsRemainder, Crc8IsRemainder, RemainderIsUnique, PrbsRecurs, PutsFit};
ghost use Rattle.bit_slice.specs.Laws.{PutsJoin};
ghost use Rattle.bit_slice.specs.Laws.{StopsHere, StopsEarly, StopsLater, StopsRightly, PutsThrough, StopsThrough};

/// CRC-32 is the remainder of a polynomial.
pub fn crc32_law()
    ensures { CrcIsRemainder }
{}

/// CRC-8 is the remainder of a polynomial.
pub fn crc8_law()
    ensures { Crc8IsRemainder }
{}

/// A polynomial has one remainder.
pub fn remainder_law()
    ensures { RemainderIsUnique }
{}

/// Each bit of the scrambler's sequence is the sum of the fourteenth and the fifteenth before it, the first ones by the
/// loading sequence.
pub fn prbs_law()
    ensures { PrbsRecurs }
{}

/// Puts one after another are one.
pub fn puts_law()
    ensures { PutsJoin }
{}

/// Where a writer of several parts stops: `here` at its first put, `early` before other parts, `later` behind them.
/// If it finds the sink `full`, this had less room than all its bits; and if it put all of them, they `fit`.
pub fn stops_law()
    ensures here { StopsHere }
    ensures early { StopsEarly }
    ensures later { StopsLater }
    ensures full { StopsRightly }
    ensures fit { PutsFit }
{}

/// What a writer did to a [`crate::CrcSink`], it did to the inner sink.
pub fn wrapped_law()
    ensures puts { PutsThrough }
    ensures stops { StopsThrough }
{}
