// The front of a file, looked at again for people.
use std::fs::{File, Files};
use std::io::{self, Read};

/// The first bytes of a named file, so many at most.
pub fn front_of(rt: &(impl Files + AllocGlobal), name: &str, most: usize) -> io::Result<Vec<u8>> {
    let mut front = Vec::new(rt.alloc());
    File::open(rt, name)?
        .take(most as u64)
        .read_to_end(&mut front)?;
    Ok(front)
}
