// What a byte of a data field begins.

/// What begins at a byte of the joined data fields.
#[derive(Clone, Copy, Debug, PartialEq, Eq)]
pub enum Mark {
    /// No byte stands here: a block was not taken, or an epoch is not there.
    Gap,
    /// No user packet.
    Inside,
    /// A user packet whose slot follows from the one before it.
    Next,
    /// A user packet with an ISCR, which is below 2^22.
    Timed(u32),
}
