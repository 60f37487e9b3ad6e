// What failed on real files, and why.
use std::fmt::{self, Display, Formatter, Write};
use std::io::{self, ErrorKind};

/// Why a call on a file or on standard output failed: the system's reason, in words, and its number if it has one.
#[derive(Clone, Copy, PartialEq, Eq, Debug)]
pub struct Reason {
    kind: ErrorKind,
    number: Option<i32>,
}

impl From<ErrorKind> for Reason {
    fn from(kind: ErrorKind) -> Reason {
        Reason { kind, number: None }
    }
}

impl From<io::Error> for Reason {
    fn from(error: io::Error) -> Reason {
        Reason {
            kind: error.kind(),
            number: error.raw_os_error(),
        }
    }
}

impl Display for Reason {
    fn fmt<W: Write>(&self, f: &mut Formatter<W>) -> fmt::Result {
        match (self.kind, self.number) {
            (ErrorKind::NotFound, _) => f.write_str("no such file or directory"),
            (ErrorKind::StorageFull, _) => f.write_str("no space left on device"),
            (kind, Some(number)) => write!(f, "{kind} (os error {number})"),
            (kind, None) => Display::fmt(&kind, f),
        }
    }
}

/// What failed first on a desk over real files. A name is `None` if there was no memory to keep it.
#[derive(Drop)]
pub enum HostFault {
    /// A file could not be opened or read.
    Read { name: Option<String>, why: Reason },
    /// A file could not be created or written.
    Write { name: Option<String>, why: Reason },
    /// A file was not created, since it is one that was opened, under another name: this one.
    IsRead { name: Option<String> },
    /// A file of this name was not created, since standard output or standard error goes to it.
    IsTold { name: Option<String> },
    /// Standard output took no more.
    Said { why: Reason },
}
