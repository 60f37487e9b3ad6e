// What is told of timestamps that are of other moments.
use crate::counts::RunCounts;
use crate::input::Input;
use crate::shown::Shown;
use plp_config::SUPERFRAME_PERIOD;
use std::fmt::{self, Display, Formatter, Write};
use std::io::{self, Eprint};

// What is so then, and what to do.
#[derive(Clone, Copy)]
struct OtherMoments;

impl Display for OtherMoments {
    fn fmt<W: Write>(&self, f: &mut Formatter<W>) -> fmt::Result {
        write!(
            f,
            "timestamps are of other moments: if {SUPERFRAME_PERIOD} superframes or more were lost in a row, or units came twice or out of order, frames behind that stand at wrong moments; give what came behind it to another run"
        )
    }
}

/// Says it of the one file that was read.
pub fn say_moments(rt: &impl Eprint) -> io::Result<()> {
    eprintln!(rt; "{}", OtherMoments)
}

impl RunCounts<'_> {
    /// Says which feeds have timestamps of other moments, and what to do.
    pub fn say_other_moments(&self, rt: &impl Eprint) -> io::Result<()> {
        for (place, input) in self.inputs.as_slice().iter().enumerate() {
            if self.notes.other_moments(place).is_some() {
                eprintln!(rt;
                    "{}: {}, or put `mend` in front",
                    Shown(input.name),
                    OtherMoments
                )?;
            }
        }
        Ok(())
    }

    /// Says of a feed how many frames have them, while the run goes on.
    pub fn say_moments_now(
        &self,
        rt: &impl Eprint,
        place: usize,
        input: &Input<'_>,
    ) -> io::Result<()> {
        match self.notes.other_moments(place) {
            Some(note) => eprintln!(rt;
                "{}: {} frames so far have timestamps of other moments, the first is frame {} of CONFIG: start this again with what comes, or put `mend` in front",
                Shown(input.name),
                note.count,
                note.first
            ),
            None => Ok(()),
        }
    }
}
