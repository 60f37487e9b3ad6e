// How names and faults are shown to people.
use ports::{HostFault, Reason};
use std::fmt::{self, Display, Formatter, Write};
use std::io;

/// A name, its control characters escaped: none may steer a terminal.
#[derive(Clone, Copy)]
pub struct Shown<'a>(pub &'a str);

impl Display for Shown<'_> {
    fn fmt<W: Write>(&self, f: &mut Formatter<W>) -> fmt::Result {
        for c in self.0.chars() {
            if c.is_control() {
                write!(f, "\\u{{{:x}}}", c as u32)?;
            } else {
                f.write_char(c)?;
            }
        }
        Ok(())
    }
}

// Reasons of the system that have no kind, by their numbers.
#[rattlefmt::skip]
const REASONS: [(i32, &str); 18] = [
    (5, "input/output error"),
    (6, "no such device or address"),
    (9, "it is closed, or not open for that"),
    (19, "no such device"),
    (23, "too many files are open in the system"),
    (24, "too many files are open"),
    (36, "the name is too long"),
    (61, "no data available"),
    (67, "link has been severed"),
    (70, "communication error on send"),
    (71, "protocol error"),
    (74, "bad message"),
    (75, "value too large"),
    (105, "no buffer space available"),
    (112, "host is down"),
    (117, "structure needs cleaning"),
    (121, "remote input/output error"),
    (123, "no medium found"),
];

// Why a call failed, in words.
#[derive(Clone, Copy)]
struct Why<'a>(&'a Reason);

impl Display for Why<'_> {
    fn fmt<W: Write>(&self, f: &mut Formatter<W>) -> fmt::Result {
        for (number, words) in &REASONS {
            if *self.0 == Reason::from(io::Error::from_raw_os_error(*number)) {
                return write!(f, "{words} (os error {number})");
            }
        }
        write!(f, "{}", self.0)
    }
}

/// What failed first, and why.
#[derive(Clone, Copy)]
pub struct Told<'a>(pub &'a HostFault);

// The name of a file, if there was memory to keep it.
fn file(name: &Option<String>) -> Shown<'_> {
    Shown(name.as_ref().map_or("a file", |name| name.as_str()))
}

impl Display for Told<'_> {
    fn fmt<W: Write>(&self, f: &mut Formatter<W>) -> fmt::Result {
        match self.0 {
            HostFault::Read { name, why } | HostFault::Write { name, why } => write!(
                f,
                "{}: {}",
                file(name),
                Why(why)
            ),
            HostFault::IsRead { name } => write!(
                f,
                "OUT is the same file as {}, which is read; name another OUT",
                file(name)
            ),
            HostFault::IsTold { name } => write!(
                f,
                "{}: OUT is the file of standard output or standard error; name another OUT",
                file(name)
            ),
            HostFault::Said { why } => write!(f, "standard output: {}", Why(why)),
        }
    }
}
