// Frames whose timestamp is of another moment, counted for people.
use frame_groups::{MuteCause, Waiting};
use ports::Note;

/// Counts a record that is left behind, if its frame is muted for its timestamp.
pub fn count(note: &mut Note, record: Option<Waiting>) {
    if let Some(
        Waiting {
            frame,
            mute: Some(MuteCause::TimeDisagrees { .. }),
        },
    ) = record
    {
        note.add(frame);
    }
}
