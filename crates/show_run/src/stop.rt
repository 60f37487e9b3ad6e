// Why a file was not shown to its end.
use site_frame::RecordWhy;
use t2mi_packet::PacketWhy;
use thiserror::Error;

/// Why the lines of a file end before it does.
#[derive(Clone, Copy, Debug, PartialEq, Eq, Error)]
pub enum ShowStop {
    /// No packet begins at this byte of the file, counted from 0.
    #[error("no packet begins at byte {at}: {why}")]
    PacketRefused { at: u64, why: PacketWhy },
    /// No record begins where this one must, counted from 0.
    #[error("record {number}: {why}")]
    RecordRefused { number: u64, why: RecordWhy },
    /// Memory ran out for a record of which the head was read.
    #[error("no memory for a record")]
    NoRoom,
}
