// The lines of records.
ghost use Rattle.std.specs.Prelude.{◌≡◌};
ghost use Rattle.site_frame.specs.FeedStandsFor.{coming_of};
ghost use Rattle.site_frame.specs.declared.coming.Coming.TheVariants.{Whole};

use crate::count_line::{give_line, records_line};
use crate::record_line::line_of;
use file_run::{BUFFER, Line, Machine, Step, events_law};
use site_frame::{Coming, RecordFeed, stands_law};
use std::alloc::Global;

/// A line for each record of a file, and last their number. It holds one record at most.
#[derive(Drop)]
pub struct FrameLines {
    pub(crate) feed: RecordFeed,
    // The line that is given next.
    line: Line,
}

impl FrameLines {
    ghost use Rattle.std.specs.Prelude.{ℕ, Bool, List, []};
    ghost use Rattle.site_frame.specs.declared.reading.RecordView.{RecordView};
    ghost use Rattle.site_frame.specs.FeedStandsFor.{RecordFeedStandsFor, came_of};
    ghost use Rattle.show_run.specs.FrameLines.{IsNew, IsLookedAt};

    /// No record was seen. It takes no memory: that of a record is taken once its head is there.
    pub fn new(alloc: Global) -> FrameLines
        ensures { IsNew result }
    {
        FrameLines {
            feed: RecordFeed::new(alloc),
            line: Line::new(),
        }
    }

    // Looks at the record that has come whole.
    fn see(&mut self)
        requires whole { coming_of self.old.feed ≡ Whole }
        requires idle { self.old.line ≡ [] }
        ensures sees { (views : List RecordView) (came : List ℕ) (ended : Bool)
            → RecordFeedStandsFor self.old.feed views came ended
            → IsLookedAt views came ended self.new }
        ensures came { came_of self.new.feed ≡ came_of self.old.feed }
    {
        match line_of(&self.feed) {
            Ok(line) => {
                self.line = line;
                self.feed.accept();
            }
            Err(why) => self.feed.refuse(why),
        }
    }
}

impl Machine for FrameLines {
    ghost use Rattle.std.specs.Prelude.{◌≡◌, ◌+◌, ℕ, List, []};
    ghost use Rattle.file_run.specs.declared.input.TheConstants.{BUFFER};
    ghost use Rattle.site_frame.specs.FeedStandsFor.{came_of};
    ghost use Rattle.show_run.specs.FrameLines.{Comes, next_of, left_of};

    ghost Becomes = { Comes };

    ghost inputs = { λ m. 1 };

    ghost next = { next_of };

    ghost left = { left_of };

    ghost reach = { λ m input. came_of m.feed + BUFFER };

    fn step(&self) -> Step {
        stands_law();
        if !self.line.is_empty() {
            return Step::Give;
        }
        if self.feed.lacks() == 0 {
            return Step::End;
        }
        Step::Read {
            input: 0,
            least: 1,
            most: BUFFER as u64,
        }
    }

    fn feed(&mut self, _input: usize, bytes: &[u8]) -> usize {
        events_law();
        let count = self.feed.feed(bytes);
        if self.feed.is_whole() {
            self.see();
        }
        count
    }

    fn end_input(&mut self, _input: usize, _bytes: &[u8]) {
        events_law();
        self.feed.finish();
        if self.feed.coming() == Coming::Finished {
            self.line = records_line(self.feed.count());
        }
    }

    fn give(&mut self, out: &mut [u8]) -> usize {
        events_law();
        give_line(&mut self.line, out)
    }
}
