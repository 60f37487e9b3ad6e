// Laws of the definitions. Their functions do nothing.
ghost use Rattle.network_laws.specs.MendedRun.{MendedComesBack};

use bb_frame::{bit_counts_law, scramble_twice_law};
use bit_slice::crc32_law;
use frame_groups::{named_law, next_law, parts_law};
use l1_signal::{conf_law, dyn_law, post_law, pre_law};
use mended_frames::{pass_law, rise_law};
use plp_config::{block_law, emission_law, interleaving_law, spread_law};
use stream_laws::{back_law, shown_law};
use t2mi_packet::{spell_law, written_law};
use t2mi_stream::{survivor_law, undamaged_law};

/// Whatever the bytes of the streams are: what a modulator makes of what is written runs from the first frame that
/// was made and begins a superframe to the last one: each frame that was made, as it was made, under its number, and
/// each other number muted.
pub fn mend_law()
    ensures { MendedComesBack }
{
    pass_law();
    rise_law();
    back_law();
    shown_law();
    next_law();
    named_law();
    parts_law();
    pre_law();
    conf_law();
    dyn_law();
    post_law();
    bit_counts_law();
    scramble_twice_law();
    crc32_law();
    spell_law();
    written_law();
    emission_law();
    block_law();
    survivor_law();
    undamaged_law();
    spread_law();
    interleaving_law();
}
