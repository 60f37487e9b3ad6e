// What holds of what is written of the frames of every plan.
ghost use Rattle.std.specs.Prelude.{◌≡◌, ◌<◌, ◌^◌, ℕ, length};
ghost use Rattle.plp_config.specs.Plps.{plp_at};
ghost use Rattle.stream_laws.specs.FrameLaws.{WrittenMustCome, UndamagedMustCome};
ghost use Rattle.stream_laws.specs.Types.{TypesFit};

use crate::frame_laws::{frame_law, sent_law, stream_law, tests_law, undamaged_law};
use crate::unit_laws::honest_law;
use plp_config::Plan;
use record_laws::id_law;

fn plp_group(plan: &Plan, plp: usize) -> u8
    requires { plp < length plan.now.plps }
    ensures { result ≡ (plp_at plan.now.plps plp).group }
{
    plan.config().plps.get(plp).unwrap().group
}

// The groups of a plan's PLPs are bytes.
fn groups_fit_law(plan: &Plan)
    ensures { (plp : ℕ) → plp < length plan.now.plps → (plp_at plan.now.plps plp).group < 2 ^ 8 }
{
    for plp in 0..plan.config().plps.len() {
        let _ = plp_group(plan, plp);
    }
}

// Its other numbers of which no rule speaks fit their types too.
fn numbers_fit(plan: &Plan)
    ensures tx_id { plan.now.l1.tx_id < 2 ^ 8 }
    ensures cell_id { plan.now.cell_id < 2 ^ 16 }
    ensures network_id { plan.now.network_id < 2 ^ 16 }
    ensures system_id { plan.now.system_id < 2 ^ 16 }
    ensures frequency { plan.now.frequency < 2 ^ 32 }
{
    let config = plan.config();
    let _tx_id = config.l1.tx_id;
    let _cell_id = config.cell_id;
    let _network_id = config.network_id;
    let _system_id = config.system_id;
    let _frequency = config.frequency;
}

/// The numbers of a plan fit their types. It reads them, and does nothing.
pub fn type_law(plan: &Plan)
    ensures { TypesFit plan.now }
{
    id_law(plan);
    groups_fit_law(plan);
    numbers_fit(plan);
}

/// If damage is honest, or if all units from one on came as they were sent, what is written of what is received of a
/// run of a plan are the records that must come.
pub fn plan_law(plan: &Plan)
    ensures honest { WrittenMustCome plan.now }
    ensures undamaged { UndamagedMustCome plan.now }
{
    plan.rules_law();
    type_law(plan);
    sent_law();
    stream_law();
    tests_law();
    frame_law();
    honest_law();
    undamaged_law();
}
