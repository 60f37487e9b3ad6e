// Laws of the definitions. Their functions do nothing.
ghost use Rattle.record_laws.specs.Laws.{NoneLost};
ghost use Rattle.network_laws.specs.RecoverLaws.{InterleavingIsEpoch, SlotRecovers, LostEnded, ReadbackRecovers};
ghost use Rattle.network_laws.specs.RecoverLaws.{BlocksTaken, RunRecovers};
ghost use Rattle.network_laws.specs.RecoverLaws.{RecordsRecover, WholeComesBack, RunComesBack};

use bb_frame::{bit_counts_law, scramble_twice_law, written_is_spelled_law};
use cell_map::shape_law;
use frame_groups::{map_test_law, parts_law};
use l1_signal::{conf_law, dyn_law, post_law, pre_law};
use mode_adapt::{begin_law, end_law, first_law, sent_within_law, within_law};
use null_delete::{dnp_fits_law, next_kept_law, without_deletion_law};
use plp_config::{
    block_law, delay_law, emission_law, interleaving_law, iscr_law, length_law, range_law,
    release_law, run_length_law, slot_time_law, spread_law,
};
use plp_receiver::readback_law as once_law;
use record_laws::{fit_law, recover_law as loss_law, stand_law};
use scheduler::{field_law, order_law};

/// The interleaving frames of every plan are epochs.
pub fn plan_epochs_law()
    ensures { InterleavingIsEpoch }
{
    within_law();
    length_law();
}

/// Readback of the epochs that end with some frames, muted ones among them, is what the frames give back.
pub fn epochs_law()
    ensures slot { SlotRecovers }
    ensures lost { LostEnded }
    ensures readback { ReadbackRecovers }
{
    plan_epochs_law();
    sent_within_law();
    begin_law();
    end_law();
    first_law();
    iscr_law();
    delay_law();
    release_law();
    range_law();
    slot_time_law();
    next_kept_law();
    without_deletion_law();
    length_law();
    spread_law();
    block_law();
}

/// Each block of an epoch is taken, as what was sent.
pub fn taken_law()
    ensures { BlocksTaken }
{
    plan_epochs_law();
    sent_within_law();
    begin_law();
    end_law();
    first_law();
    iscr_law();
    delay_law();
    dnp_fits_law();
    written_is_spelled_law();
    length_law();
    spread_law();
    block_law();
}

/// What a PLP is given back of the records of a run's frames, muted ones among them, is what the frames give back.
pub fn recover_law()
    ensures { RunRecovers }
{
    epochs_law();
    taken_law();
    once_law();
    stand_law();
    scramble_twice_law();
    bit_counts_law();
    map_test_law();
    parts_law();
    shape_law();
    pre_law();
    conf_law();
    dyn_law();
    post_law();
    fit_law();
    block_law();
    spread_law();
    interleaving_law();
    field_law();
    order_law();
}

/// So it is of all records of a run.
pub fn records_law()
    ensures { RecordsRecover }
{
    recover_law();
    emission_law();
}

// If nothing is muted, nothing is lost.
fn none_law()
    ensures { NoneLost }
{
    loss_law();
}

/// If nothing is muted, and null packets are canonical, the packets that were sent come back.
pub fn whole_law()
    ensures whole { WholeComesBack }
    ensures run { RunComesBack }
{
    recover_law();
    epochs_law();
    none_law();
    length_law();
    spread_law();
    slot_time_law();
    release_law();
    run_length_law();
}
