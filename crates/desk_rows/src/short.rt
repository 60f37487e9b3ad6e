// Real files of which a call moves little.
ghost use Rattle.std.specs.Prelude.{◌<◌};

use std::alloc::Allocator;
use std::fmt::Display;
use std::fs::{File, Files, Metadata, OpenFile, OpenOptions};
use std::io::{self, ErrorKind, Print, Read, Seek, SeekFrom, Write};

/// A file of which each call moves one byte at most, and is interrupted so often before. Behind its end it cannot be
/// read again.
#[derive(Drop)]
pub struct ShortFile<F: Drop> {
    file: F,
    times: u32,
    left: u32,
    ended: bool,
}

impl<F: Drop> ShortFile<F> {
    // Whether the call is cut short.
    fn is_cut(&mut self) -> bool {
        if self.left == 0 {
            self.left = self.times;
            return false;
        }
        self.left -= 1;
        true
    }
}

fn interrupted() -> io::Error {
    io::Error::from(ErrorKind::Interrupted)
}

impl<F: Read + Drop> Read for ShortFile<F> {
    fn read(&mut self, buffer: &mut [u8]) -> io::Result<usize> {
        if self.is_cut() {
            return Err(interrupted());
        }
        if self.ended {
            return Err(io::Error::from(ErrorKind::Other));
        }
        let few = buffer.len().min(1);
        let count = self.file.read(&mut buffer[..few])?;
        self.ended = few > 0 && count == 0;
        Ok(count)
    }
}

impl<F: Write + Drop> Write for ShortFile<F> {
    fn write(&mut self, piece: &[u8]) -> io::Result<usize> {
        if self.is_cut() {
            return Err(interrupted());
        }
        let few = piece.len().min(1);
        self.file.write(&piece[..few])
    }

    fn flush(&mut self) -> io::Result<()> {
        self.file.flush()
    }
}

impl<F: Seek + Drop> Seek for ShortFile<F> {
    fn seek(&mut self, to: SeekFrom) -> io::Result<u64> {
        self.file.seek(to)
    }
}

impl<F: OpenFile + Drop> OpenFile for ShortFile<F> {
    fn metadata(&self) -> io::Result<Metadata> {
        self.file.metadata()
    }

    fn set_len(&self, size: u64) -> io::Result<()> {
        self.file.set_len(size)
    }

    fn sync_all(&self) -> io::Result<()> {
        self.file.sync_all()
    }

    fn sync_data(&self) -> io::Result<()> {
        self.file.sync_data()
    }
}

/// A runtime with such files. Each write to its standard output stands in brackets, and it takes no text that begins
/// with "lost".
#[derive(Drop)]
pub struct ShortFiles<R: Files + Print + Drop> {
    pub rt: R,
    pub times: u32,
}

impl<R: Files + Print + Drop> Print for ShortFiles<R> {
    fn print<D: Display + Drop>(&self, value: D) -> io::Result<()> {
        self.rt.print(value)
    }

    fn println<D: Display + Drop>(&self, value: D) -> io::Result<()> {
        self.rt.println(value)
    }

    fn write_all(&self, bytes: &[u8]) -> io::Result<()> {
        if bytes.starts_with(b"lost") {
            return Err(io::Error::from(ErrorKind::StorageFull));
        }
        self.rt.write_all(b"[")?;
        self.rt.write_all(bytes)?;
        self.rt.write_all(b"]")
    }
}

impl<R: Files + Print + Drop> Files for ShortFiles<R> {
    type File = ShortFile<R::File>;

    type Dir = R::Dir;

    fn open_file(&self, how: &OpenOptions, path: &str) -> io::Result<ShortFile<R::File>> {
        let file = self.rt.open_file(how, path)?;
        Ok(ShortFile {
            file,
            times: self.times,
            left: self.times,
            ended: false,
        })
    }

    fn open_dir(&self, path: &str) -> io::Result<R::Dir> {
        self.rt.open_dir(path)
    }

    fn metadata(&self, path: &str) -> io::Result<Metadata> {
        self.rt.metadata(path)
    }

    fn symlink_metadata(&self, path: &str) -> io::Result<Metadata> {
        self.rt.symlink_metadata(path)
    }

    fn copy(&self, from: &str, to: &str) -> io::Result<u64> {
        self.rt.copy(from, to)
    }

    fn rename(&self, from: &str, to: &str) -> io::Result<()> {
        self.rt.rename(from, to)
    }

    fn remove_file(&self, path: &str) -> io::Result<()> {
        self.rt.remove_file(path)
    }

    fn create_dir(&self, path: &str) -> io::Result<()> {
        self.rt.create_dir(path)
    }

    fn remove_dir(&self, path: &str) -> io::Result<()> {
        self.rt.remove_dir(path)
    }

    fn remove_dir_all<B: Allocator>(&self, alloc: B, path: &str) -> io::Result<()> {
        self.rt.remove_dir_all(alloc, path)
    }
}
