// The line that is said of a record.
ghost use Rattle.std.specs.Prelude.{◌≡◌, ◌≤◌, ◌+◌, ◌++◌, codes, length, IfOk, IfErr};
ghost use Rattle.std.specs.Fmt.{decimal};
ghost use Rattle.site_frame.specs.Whole.{Refuses};
ghost use Rattle.site_frame.specs.FeedStandsFor.{coming_of, count_of, record_of};
ghost use Rattle.site_frame.specs.declared.coming.Coming.TheVariants.{Whole};
ghost use Rattle.show_run.specs.FrameLines.{IsLineOf};
ghost use Rattle.show_run.specs.SaidLines.{record_line as line_of_record};

use file_run::Line;
use plp_config::Moment;
use site_frame::{RecordFeed, RecordView, RecordWhy};

// Bytes of the key in front of the seconds at most, and digits of a number at most: those of 2^64 - 1.
const KEY: usize = 20;

const DIGITS: usize = 20;

// Bytes of a line up to its moment at most: those of its keys, and the digits of its numbers.
const TO_MOMENT: usize = 7 + KEY + 12 + 3 * DIGITS;

// The line of a record up to its moment, with a key in front of the seconds.
fn line_to_moment(number: u64, key: &[u8], moment: &Moment) -> Line
    requires { length key.now ≤ KEY }
    ensures text { result ≡ codes "record=" ++ decimal number ++ key.now ++ decimal moment.now.seconds
        ++ codes " subseconds="
        ++ decimal moment.now.subseconds }
    ensures len { length result ≤ TO_MOMENT }
{
    let mut line = Line::new();
    line.push_field(b"record=", number);
    line.push_field(key, moment.seconds);
    line.push_field(b" subseconds=", u64::from(moment.subseconds));
    line
}

/// The line of a record with its number in the file.
#[tactic(auto, unfolding(crate::specs::SaidLines::record_line))]
fn record_line(number: u64, view: &RecordView<'_>) -> Line
    ensures { result ≡ line_of_record number view.now }
{
    match view {
        RecordView::Frame {
            moment,
            blocks,
            cells,
            ..
        } => {
            let mut line = line_to_moment(number, b" kind=frame seconds=", moment);
            line.push_field(b" blocks=", u64::from(blocks.len()));
            line.push_field(b" cells=", u64::from(cells.len()));
            line.push(b"\n");
            line
        }
        RecordView::Muted { moment } => {
            let mut line = line_to_moment(number, b" kind=muted seconds=", moment);
            line.push(b"\n");
            line
        }
    }
}

/// The line of the record that has come whole.
pub fn line_of(feed: &RecordFeed) -> Result<Line, RecordWhy>
    requires { coming_of feed.now ≡ Whole }
    ensures ok { IfOk result (IsLineOf (record_of feed.now) (count_of feed.now)) }
    ensures err { IfErr result (Refuses (record_of feed.now)) }
{
    match feed.record() {
        Ok(view) => Ok(record_line(feed.count(), &view)),
        Err(why) => Err(why),
    }
}
