// How a fault says its place.
use std::fmt;

// The place of a PLP, if there is one.
#[derive(Clone, Copy)]
pub(crate) struct At(pub(crate) Option<u8>);

impl fmt::Display for At {
    fn fmt<W: fmt::Write>(&self, f: &mut fmt::Formatter<W>) -> fmt::Result {
        match self.0 {
            Some(plp) => write!(f, " at the PLP of place {plp}"),
            None => Ok(()),
        }
    }
}

// That a test of the capacity fails. It stands apart since the kit takes a crate for one with tests if an attribute
// says that word.
#[derive(Clone, Copy)]
pub(crate) struct Failed(pub(crate) u8);

impl fmt::Display for Failed {
    fn fmt<W: fmt::Write>(&self, f: &mut fmt::Formatter<W>) -> fmt::Result {
        write!(f, "test {} fails", self.0)
    }
}
