// Laws of the definitions. Their functions do nothing.
ghost use Rattle.stream_laws.specs.Again.{RunSentAgain};
ghost use Rattle.stream_laws.specs.Coming.{RemadeArrives, RemadeComesBack};

use crate::damage_laws::{record_law, whole_law};
use crate::formed_laws::back_law;
use bb_frame::{bit_counts_law, scramble_twice_law};
use bit_slice::crc32_law;
use frame_groups::{named_law, parts_law};
use l1_signal::{conf_law, dyn_law, post_law, pre_law};
use plp_config::{block_law, emission_law, interleaving_law, spread_law};
use t2mi_packet::{spell_law, written_law};
use t2mi_stream::{survivor_law, undamaged_law};

/// If frames that a modulator wrote are sent again, spaced and from one on that begins a superframe, then what comes of
/// their packets runs from the first to the last: each of them that is complete, and every other number muted.
pub fn remade_law()
    ensures { RemadeComesBack }
{
    back_law();
    record_law();
    whole_law();
    named_law();
    parts_law();
    pre_law();
    conf_law();
    dyn_law();
    post_law();
    bit_counts_law();
    scramble_twice_law();
    spread_law();
    interleaving_law();
}

/// The packets that are accepted of the units of such frames are theirs.
pub fn arrive_law()
    ensures { RemadeArrives }
{
    crc32_law();
    spell_law();
    written_law();
    emission_law();
    block_law();
    survivor_law();
    undamaged_law();
    parts_law();
    pre_law();
    conf_law();
    dyn_law();
    post_law();
    bit_counts_law();
    scramble_twice_law();
}

/// If the first frames of a run are sent again, the packets are those that the gateway sends.
pub fn again_law()
    ensures { RunSentAgain }
{
    scramble_twice_law();
    pre_law();
    post_law();
    bit_counts_law();
    block_law();
}
