// Which file of the system a name or a handle means.
use std::fs::{self, Metadata};
use std::io;
use std::os::unix::fs::MetadataExt;
use std::rt::Files;

/// A file of the system, whatever its names: its device and its number there.
#[derive(Clone, Copy, PartialEq, Eq)]
pub struct Node {
    device: u64,
    number: u64,
}

/// The file of which this tells, if it could be told.
pub fn node_of(file: io::Result<Metadata>) -> Option<Node> {
    let file = file.ok()?;
    Some(Node {
        device: file.dev(),
        number: file.ino(),
    })
}

// Where lines are said, and words for people.
const TOLD: [&str; 2] = ["/dev/stdout", "/dev/stderr"];

/// Whether a name is that of a file of the disc to which standard output or standard error goes: what is told would
/// stand over what is written.
pub fn is_told_to(rt: &impl Files, name: &str) -> bool {
    let Some(node) = node_of(fs::metadata(rt, name)) else {
        return false;
    };
    for told in TOLD {
        if let Ok(file) = fs::metadata(rt, told)
            && file.is_file()
            && node_of(Ok(file)) == Some(node)
        {
            return true;
        }
    }
    false
}
