// A record that has come whole, and the packets that are due behind it.
ghost use Rattle.std.specs.Prelude.{◌≡◌, ◌<◌, ◌+◌, length};
ghost use Rattle.site_frame.specs.Placing.{IsPlaced};
ghost use Rattle.site_frame.specs.Whole.{moment_of as moment_in};
ghost use Rattle.site_frame.specs.FeedStandsFor.{coming_of, record_of};
ghost use Rattle.site_frame.specs.declared.coming.Coming.TheVariants.{Whole};
ghost use Rattle.plp_receiver.specs.JointStandsFor.{frame_of, due_of, network_of};
ghost use Rattle.receive_run.specs.Taking.{Awaits, SamePlp, TakesView, IsLook, GivesPacket};

use plp_config::{Moment, Plan};
use plp_receiver::JoinedReceiver;
use site_frame::{RecordFeed, RecordView, RecordWhy, place_record};
use ts_packet::SIZE;

// When the frame of a record leaves.
fn moment_of(view: &RecordView<'_>) -> Moment
    ensures { result ≡ moment_in view.now }
{
    match view {
        RecordView::Frame { moment, .. } => *moment,
        RecordView::Muted { moment } => *moment,
    }
}

// Takes the record of the frame that was expected; if none was, the receiver begins with it.
fn take_view(
    receiver: &mut JoinedReceiver<'_>,
    expected: Option<u64>,
    frame: u64,
    view: &RecordView<'_>,
)
    requires given_out { due_of receiver.old ≡ 0 }
    requires awaits { Awaits receiver.old expected }
    requires placed { IsPlaced (network_of receiver.old) expected (moment_in view.now) frame }
    ensures takes { TakesView expected receiver.old receiver.new frame view.now }
    ensures frame { frame_of receiver.new ≡ frame + 1 }
    ensures same { SamePlp receiver.old receiver.new }
{
    if expected.is_none() {
        receiver.begin_at(frame);
    }
    receiver.frame(view);
}

/// What became of a record that has come whole.
#[derive(Clone, Copy, Debug, PartialEq, Eq)]
pub enum Look {
    /// The receiver took it: the record of this frame.
    Taken(u64),
    /// It is no record.
    NoRecord(RecordWhy),
    /// No frame leaves at its moment, or not the one that is expected.
    Misplaced(RecordWhy),
}

/// Looks at the record that has come whole, and takes it if it is of the frame that is expected, or of any if none is.
pub fn take_record(
    plan: &Plan,
    expected: Option<u64>,
    feed: &RecordFeed,
    receiver: &mut JoinedReceiver<'_>,
) -> Look
    requires whole { coming_of feed.now ≡ Whole }
    requires network { network_of receiver.old ≡ plan.now }
    requires given_out { due_of receiver.old ≡ 0 }
    requires awaits { Awaits receiver.old expected }
    ensures { IsLook plan.now expected (record_of feed.now) receiver.old receiver.new result }
{
    let view = match feed.record() {
        Ok(view) => view,
        Err(why) => return Look::NoRecord(why),
    };
    match place_record(plan, expected, &moment_of(&view)) {
        Ok(frame) => {
            take_view(receiver, expected, frame, &view);
            Look::Taken(frame)
        }
        Err(why) => Look::Misplaced(why),
    }
}

/// Gives out the next packet.
pub fn give_packet(receiver: &mut JoinedReceiver<'_>, packet: &mut [u8; SIZE])
    requires { 0 < due_of receiver.old }
    ensures gives { GivesPacket receiver.old receiver.new packet.new }
    ensures whole { length packet.new ≡ SIZE }
{
    receiver.release(packet);
}
