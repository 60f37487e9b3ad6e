// What comes of a run.
use site_frame::RecordWhy;
use thiserror::Error;

/// The slots of a run.
#[derive(Clone, Copy, Debug, PartialEq, Eq)]
pub struct ReceiveRan {
    /// The slot at which the output begins, 0 if there is no record.
    pub first: u64,
    /// How many slots were given out.
    pub slots: u64,
}

/// Why a receiver refuses what it was fed.
#[derive(Clone, Copy, Debug, PartialEq, Eq, Error)]
pub enum ReceiveStop {
    /// No record begins where this one must, counted from 0, or its frame is not the next one.
    #[error("record {number}: {why}")]
    RecordRefused { number: u64, why: RecordWhy },
}
