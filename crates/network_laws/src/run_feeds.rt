// The law of feeds that have nothing but packets of one run. Its function does nothing.
ghost use Rattle.network_laws.specs.FeedsOfRun.{MadeAreOfRun, DamagedRunsMended, WholeFeedMade, WholeStreamMended};
ghost use Rattle.network_laws.specs.FeedsOfRun.{WholeAmongDamaged, CameAreMade, CameOfDamagedMade, SurvivorsMended};
ghost use Rattle.network_laws.specs.FeedsOfRun.{SurvivorAlone, NoneLostMended};

use bb_frame::{bit_counts_law, scramble_twice_law};
use cell_map::shape_law;
use frame_groups::{map_test_law, named_law, parts_law};
use frame_weave::placed_law;
use l1_signal::{conf_law, dyn_law, post_law, pre_law};
use mended_frames::rise_law;
use plp_config::{block_law, interleaving_law, spread_law};
use record_laws::fit_law;
use scheduler::{field_law, order_law};
use stream_laws::{group_law, near_law, sent_law, shown_law, stream_law};
use t2mi_stream::{accepted_front_law, survivor_law, undamaged_law, unit_reads_law};

/// Feeds that have nothing but packets of one run, near one another, each in a group of its frame's number:
///
/// - Each frame that is made, of one feed or of several together, is the run's frame of that number, whatever each feed
///   lacks.
/// - Each frame is made of which every packet came in some feed, if none is silent too often; and of streams that
///   together lost nothing of the run what is written is its stream.
/// - If one of the feeds has all packets of all frames of the run, then what is sent is what the gateway sends, packet
///   for packet; and if one of the streams is the whole stream of the run, then what is written is that stream.
pub fn feeds_law()
    ensures whole { WholeFeedMade }
    ensures whole_stream { WholeStreamMended }
    ensures whole_damaged { WholeAmongDamaged }
    ensures made { MadeAreOfRun }
    ensures damaged { DamagedRunsMended }
    ensures come { CameAreMade }
    ensures come_damaged { CameOfDamagedMade }
    ensures survive { SurvivorsMended }
    ensures alone { SurvivorAlone }
    ensures none_lost { NoneLostMended }
{
    rise_law();
    placed_law();
    sent_law();
    stream_law();
    named_law();
    group_law();
    near_law();
    accepted_front_law();
    unit_reads_law();
    survivor_law();
    undamaged_law();
    shown_law();
    map_test_law();
    parts_law();
    shape_law();
    pre_law();
    conf_law();
    dyn_law();
    post_law();
    bit_counts_law();
    scramble_twice_law();
    fit_law();
    block_law();
    spread_law();
    interleaving_law();
    field_law();
    order_law();
}
