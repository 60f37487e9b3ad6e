// What the lines of a run tell of its inputs.

// How the line of `swap` tells that no packet of IN was left at the end.
const NONE_LEFT: &[u8] = b" unsent=0 ";

// How a line of `compare` tells that frames are in A or in B alone, or in both.
const ONLY_A: &[u8] = b" is=only-a";

const ONLY_B: &[u8] = b" is=only-b";

const IN_BOTH: [&[u8]; 3] = [b" is=same", b" is=muted-", b" is=differs"];

// How it tells that they are muted in A, in B, or in both.
const MUTED_A: &[u8] = b" is=muted-a";

const MUTED_B: &[u8] = b" is=muted-b";

const MUTED_BOTH: &[u8] = b" is=muted-both";

/// What the lines of `swap` and `compare` tell of their inputs.
#[derive(Clone, Copy)]
pub struct Said {
    /// Frames came from the first of two streams.
    pub some_of_first: bool,
    /// Frames came from the second one.
    pub some_of_second: bool,
    /// Some of them are muted.
    pub muted_of_first: bool,
    /// Some of those are.
    pub muted_of_second: bool,
    /// No packet of IN was left at the end.
    pub none_left: bool,
}

// Whether a text has a part.
fn has(text: &[u8], part: &[u8]) -> bool {
    text.windows(part.len().max(1)).any(|bytes| bytes == part)
}

impl Said {
    /// Nothing was said.
    pub fn new() -> Said {
        Said {
            some_of_first: false,
            some_of_second: false,
            muted_of_first: false,
            muted_of_second: false,
            none_left: false,
        }
    }

    /// A text was said.
    pub fn take(&mut self, text: &[u8]) {
        self.none_left = self.none_left || has(text, NONE_LEFT);
        let in_both = IN_BOTH.iter().any(|part| has(text, part));
        self.some_of_first = self.some_of_first || in_both || has(text, ONLY_A);
        self.some_of_second = self.some_of_second || in_both || has(text, ONLY_B);
        // The words of both begin with those of B.
        let muted_both = has(text, MUTED_BOTH);
        self.muted_of_first = self.muted_of_first || muted_both || has(text, MUTED_A);
        self.muted_of_second = self.muted_of_second || has(text, MUTED_B);
    }
}
