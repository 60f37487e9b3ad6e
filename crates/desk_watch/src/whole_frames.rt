// What is told of the frames that the feeds of a run had whole, by its notes.
use crate::counts::{Kind, OutCounts, RunCounts};
use crate::input::Input;
use crate::notes::say_as;
use crate::shown::Shown;
use crate::telling::NONE_CAME;
use std::io::{self, Eprint};

// How it is told of frames that one of two feeds had whole that the other had not.
const OTHER_LACKS: &str = "the other had not whole";

impl RunCounts<'_> {
    // Which feeds have whole what one feed has not.
    fn others(&self) -> &'static str {
        if self.inputs.len() > 2 {
            "another one"
        } else {
            "the other"
        }
    }

    // The number of the first frame, behind the last that a feed had whole, that it has not whole.
    fn lacks_from(&self, place: usize) -> u64 {
        match self.notes.whole_until(place) {
            0 => self.notes.first_whole(),
            number => number,
        }
    }

    /// Says of a feed that it fell behind, or that it is not behind any more.
    pub fn say_behind(
        &self,
        rt: &impl Eprint,
        place: usize,
        input: &Input<'_>,
        is_behind: bool,
    ) -> io::Result<()> {
        let file = Shown(input.name);
        if is_behind {
            return eprintln!(rt;
                "{file}: its frames are not whole from frame {} of CONFIG on; {} has some of them whole",
                self.lacks_from(place),
                self.others()
            );
        }
        eprintln!(rt;
            "{file}: its frames are whole again; the last of them is frame {} of CONFIG",
            self.notes.whole_until(place).saturating_sub(1)
        )
    }

    /// Says how many frames no feed had whole, while the run goes on.
    pub fn say_lacked_now(&self, rt: &impl Eprint) -> io::Result<()> {
        let Some(lacked) = self.notes.of_none() else {
            return Ok(());
        };
        let none = match self.kind {
            Kind::Merge => "neither",
            _ => "no IN",
        };
        eprintln!(rt;
            "frames that {none} had whole so far: {}; the last is frame {} of CONFIG",
            lacked.count, lacked.last
        )
    }

    /// Says of a feed how many of the frames that were sent it had whole, and of these, with these words, which no
    /// other feed had whole.
    pub fn say_whole_frames(
        &self,
        rt: &impl Eprint,
        place: usize,
        input: &Input<'_>,
        what: &str,
    ) -> io::Result<()> {
        let (OutCounts::T2mi(sent), Some((whole, alone))) = (&self.out, self.notes.of_feed(place))
        else {
            return Ok(());
        };
        let file = Shown(input.name);
        let count = whole.count;
        let sent = sent.frames();
        if count == 0 {
            return eprintln!(rt; "{file}: frames that it had whole: 0, of {sent} that were sent");
        }
        eprintln!(rt;
            "{file}: frames that it had whole: {count}, of {sent} that were sent; the last is frame {} of CONFIG",
            whole.last
        )?;
        if alone.count > 0 && self.inputs.len() > 1 {
            say_as(rt, alone, what)?;
        }
        Ok(())
    }

    /// Says of one of two feeds what it had whole, or why it had nothing.
    pub fn say_merged(&self, rt: &impl Eprint, place: usize, input: &Input<'_>) -> io::Result<()> {
        let Some((whole, _)) = self.notes.of_feed(place) else {
            return Ok(());
        };
        if whole.count == 0 {
            return input.say_none(rt, NONE_CAME);
        }
        self.say_whole_frames(rt, place, input, OTHER_LACKS)
    }

    /// Says that no frame was taken from the second of two feeds, if it is so though it had some whole.
    pub fn say_not_taken(&self, rt: &impl Eprint) -> io::Result<()> {
        let (Some(first), Some(second), Some((whole, alone))) = (
            self.input(0),
            self.input(1),
            self.notes.of_feed(1),
        ) else {
            return Ok(());
        };
        if whole.count == 0 || alone.count > 0 {
            return Ok(());
        }
        eprintln!(rt;
            "{}: no frame was taken from it: {} had each of the {} that it had whole",
            Shown(second.name),
            Shown(first.name),
            whole.count
        )
    }
}
