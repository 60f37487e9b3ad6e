// What is done to the receiver of a common PLP, if there is one.
ghost use Rattle.std.specs.Prelude.{◌≡◌, ◌<◌, length, IfOk, IfSome};
ghost use Rattle.plp_config.specs.declared.moment.TheConstants.{MOST_FRAMES};
ghost use Rattle.plp_receiver.specs.StandsFor.{frame_of, TellsDue};
ghost use Rattle.plp_receiver.specs.Both.{OnBoth, Begins, Takes, Gives, GivesJoined, CommonTellsDue, CommonIs};
ghost use Rattle.plp_receiver.specs.JointStandsFor.{CommonIsFresh, common_due};

use crate::receiver::Receiver;
use bit_slice::OutOfMemory;
use common_plp::join;
use plp_config::Plan;
use site_frame::RecordView;
use std::alloc::Global;
use ts_packet::{SIZE, TsPacket};

/// The receiver of the PLP that is joined, if one is.
pub fn open_common<'p>(
    alloc: Global,
    plan: &'p Plan,
    joins: Option<usize>,
) -> Result<Option<Receiver<'p>>, OutOfMemory>
    requires { IfSome joins (λ place. place < length plan.now.plps) }
    ensures { IfOk result (CommonIs plan.now joins) }
{
    match joins {
        Some(place) => Ok(Some(Receiver::open(alloc, plan, place)?)),
        None => Ok(None),
    }
}

/// It begins at a frame.
pub fn begin_common(common: &mut Option<Receiver<'_>>, first: u64)
    requires small { first < MOST_FRAMES }
    requires fresh { CommonIsFresh common.old }
    ensures { OnBoth (Begins first) common.old common.new }
{
    if let Some(receiver) = common {
        receiver.begin_at(first);
    }
}

/// It takes a record.
pub fn take_common(common: &mut Option<Receiver<'_>>, view: &RecordView<'_>)
    requires small { IfSome common.old (λ v. frame_of v < MOST_FRAMES) }
    requires given_out { common_due common.old ≡ 0 }
    ensures { OnBoth (Takes view.now) common.old common.new }
{
    if let Some(receiver) = common {
        receiver.frame(view);
    }
}

/// It gives out its packet, which is joined with another.
pub fn join_common(common: &mut Option<Receiver<'_>>, packet: &mut [u8; SIZE])
    ensures { GivesJoined common.old common.new packet.old packet.new }
{
    if let Some(receiver) = common {
        let mut shared = [0; SIZE];
        give_packet(receiver, &mut shared);
        *packet = *join(
            &TsPacket::from_array(shared),
            &TsPacket::from_array(*packet),
        )
        .as_array();
    }
}

/// A receiver gives out its packet, if one is due.
pub fn give_packet(receiver: &mut Receiver<'_>, packet: &mut [u8; SIZE])
    ensures { Gives packet.new receiver.old receiver.new }
{
    receiver.release(packet);
}

/// What is due of it are the packets of a list that its records give back. It does nothing.
pub fn common_due_law(common: &Option<Receiver<'_>>)
    ensures { CommonTellsDue common.now }
{
    if let Some(receiver) = common {
        due_law(receiver);
    }
}

/// The same of one receiver.
pub fn due_law(receiver: &Receiver<'_>)
    ensures { TellsDue receiver.now }
{
    receiver.due();
}

/// How many slots it has due.
pub fn due_of_common(common: &Option<Receiver<'_>>) -> u64
    ensures value { result ≡ common_due common.now }
    ensures fresh { CommonIsFresh common.now → result ≡ 0 }
{
    match common {
        Some(receiver) => receiver.due(),
        None => 0,
    }
}
