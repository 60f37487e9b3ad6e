// What comes next of a file of records.
use crate::fault::RecordWhy;

/// What comes next of a file of records.
#[derive(Clone, Copy, Debug, PartialEq, Eq)]
pub enum Coming {
    /// Bytes of the head of a record, or the end of the file.
    Head,
    /// Bytes of the rest of the record whose head came.
    Rest,
    /// Nothing until the record that has come whole was looked at.
    Whole,
    /// Nothing: no record begins where one must, for this reason.
    Refused(RecordWhy),
    /// Nothing: there is no memory for the record whose head came.
    NoRoom,
    /// Nothing: the file was nothing but records.
    Finished,
}
