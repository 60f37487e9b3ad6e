// Where a run is in its work.
use mended_frames::Source;

/// What comes next.
#[derive(Clone, Copy, Debug, PartialEq, Eq)]
pub(crate) enum Phase {
    /// What is next in the feeds, once it is known of each.
    Looks,
    /// Units of a frame, which one lends.
    Sends { number: u64, from: Source },
    /// The rest of the units.
    Rests,
    /// Nothing: the run is over.
    Done,
}
