//! Works the outside of commands: calls over real files, and over files that move one byte a call; a file that is read
//! ahead; and runs of a machine that copies. It writes what came of each.
#![tactic(auto)]

mod ahead;
mod copy_machine;
mod copying;
mod short;
mod worked;

use std::io::{self, ErrorKind};

fn failed<T>() -> io::Result<T> {
    Err(io::Error::from(ErrorKind::Other))
}

fn main(rt: HostRuntime) -> io::Result<()> {
    worked::rows(&rt)?;
    ahead::rows(&rt)?;
    copying::rows(&rt)
}
