// Why a text is refused.

use bit_slice::OutOfMemory;
use thiserror::Error;

/// The first refusal of a text, in the order in which they are tried at a line.
#[derive(Clone, Copy, Debug, PartialEq, Eq, Error)]
pub enum TextWhy {
    /// A byte is below 32 or above 126.
    #[error("every byte must be printable ASCII, from 32 to 126")]
    NotAscii = 1,
    /// The first word is not the key that is due.
    #[error("the lines must come in the order t2-gateway, bandwidth, frame, start, pid, network, l1, subslices, plp")]
    WrongKey = 2,
    /// The number of words is another, or there are more than 255 PLPs.
    #[error("the line must have the words of its key, parted by single spaces, and there are at most 255 plp lines")]
    WrongCount = 3,
    /// A word is none of those that may stand there.
    #[error("a word must be one of its list: 1.7 5 6 7 8 10, common type1 type2, 1/2 3/5 2/3 3/4 4/5 5/6, qpsk 16qam 64qam 256qam, short normal, 0 1, delete keep")]
    BadWord = 4,
    /// A number is not written in decimal without sign and leading zeros, or does not fit.
    #[error("a number must be decimal digits without sign and leading zeros, and fit the bits of its field; the version is 1 or 2")]
    BadNumber = 5,
    /// The text ends before its `subslices` line.
    #[error("the text must go on to its subslices line")]
    EndsEarly = 6,
    /// The text has more than 65,536 bytes.
    #[error("the text must have at most 65536 bytes")]
    TooLong = 7,
}

/// Why there is no configuration.
#[derive(Clone, Copy, Debug, PartialEq, Eq, Error)]
pub enum TextFault {
    /// The text is refused at a line, counted from 1 with skipped ones; at line 0 for its length.
    #[error("config line {line}: {why}")]
    Refused { line: u32, why: TextWhy },
    /// No memory was found.
    #[error("out of memory")]
    OutOfMemory,
}

impl From<OutOfMemory> for TextFault {
    ghost use Rattle.std.specs.Prelude.{◌≡◌};
    ghost use Rattle.config_text.specs.declared.fault.TextFault.TheVariants.{OutOfMemory};

    ghost from_gives = { λ _ e. e ≡ OutOfMemory };

    fn from(_error: OutOfMemory) -> TextFault {
        TextFault::OutOfMemory
    }
}
