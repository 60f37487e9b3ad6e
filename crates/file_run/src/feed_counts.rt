// Which of several feeds have the frames whole, counted for people.
ghost use Rattle.std.specs.Prelude.{◌≡◌};

use ports::{ALONE_HAD_WHOLE, Desk, HAD_WHOLE, MOST_FEEDS, NONE_HAD_WHOLE, Note};

/// The frames that each feed had whole, and of them those that no other had whole, by the place of the feed; and those
/// that none had whole.
#[derive(Clone, Copy)]
pub struct FeedCounts {
    whole: [Note; MOST_FEEDS],
    alone: [Note; MOST_FEEDS],
    lacked: Note,
}

// Counts a frame of the feed at a place.
fn count_at(notes: &mut [Note; MOST_FEEDS], feed: usize, number: u64) {
    if let Some(note) = notes.get_mut(feed) {
        note.add(number);
    }
}

impl FeedCounts {
    /// No frame came.
    pub fn none() -> FeedCounts {
        FeedCounts {
            whole: [Note::none(HAD_WHOLE); MOST_FEEDS],
            alone: [Note::none(ALONE_HAD_WHOLE); MOST_FEEDS],
            lacked: Note::none(NONE_HAD_WHOLE),
        }
    }

    /// Counts a frame, by the feeds that have it whole. It is above those that were counted.
    pub fn add(&mut self, number: u64, has: &[bool]) {
        let mut wholes: usize = 0;
        let mut last = 0;
        for (feed, is_whole) in has.iter().enumerate() {
            if *is_whole {
                count_at(&mut self.whole, feed, number);
                wholes = wholes.saturating_add(1);
                last = feed;
            }
        }
        match wholes {
            0 => self.lacked.add(number),
            1 => count_at(&mut self.alone, last, number),
            _ => {}
        }
    }

    /// Notes of so many feeds, each by its place, the frames that it had whole, and of them those that no other had
    /// whole; and the frames that none had whole.
    pub fn note<D: Desk>(&self, desk: &mut D, feeds: usize)
        ensures { D.state desk.new ≡ D.state desk.old }
    {
        for feed in 0..feeds.min(MOST_FEEDS) {
            desk.note(self.whole[feed].of(feed));
            desk.note(self.alone[feed].of(feed));
        }
        desk.note(self.lacked);
    }
}
