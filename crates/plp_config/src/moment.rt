// A time of emission.

/// Frames of a run at most: the emissions of these fit a timestamp (`emission_law`).
pub const MOST_FRAMES: u64 = 1 << 31;

/// Ticks after which an ISCR comes again: it has 22 bits (EN 302 755, annex C).
pub const ISCR_TICKS: u64 = 1 << 22;

/// Superframes after which a superframe_idx comes again: it has four bits (TS 102 773, clause 5.1).
pub const SUPERFRAME_PERIOD: u64 = 16;

/// When a frame leaves: whole seconds since 2000-01-01, and subseconds of the bandwidth besides.
#[derive(Clone, Copy, Debug, PartialEq, Eq)]
pub struct Moment {
    /// Whole seconds since 2000-01-01.
    pub seconds: u64,
    /// Subseconds besides, fewer than a second has.
    pub subseconds: u32,
}
