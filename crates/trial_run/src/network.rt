// The network of a trial.
ghost use Rattle.std.specs.Prelude.{◌≡◌, IfOk};
ghost use Rattle.trial_run.specs.Network.{trial_config, trial_plps};

use crate::stop::TrialStop;
use bit_slice::OutOfMemory;
use plp_config::{
    Band, Config, FecSize, L1Numbers, Modulation, Plan, Plp, PlpList, PlpType, Rate, fits, validate,
};
use std::alloc::Global;

// A full PLP, 2,607 bytes a frame, and what the others share with it.
const FIRST_PLP: Plp = Plp {
    id: 1,
    plp_type: PlpType::Type1,
    group: 1,
    rate: Rate::R1_2,
    modulation: Modulation::Qpsk,
    fec: FecSize::Short,
    rotation: false,
    blocks: 3,
    interleave: 1,
    delete: true,
    bits_per_second: 1_906_000,
    spread: 1,
};

const TRIAL_PLPS: [Plp; 3] = [
    FIRST_PLP,
    Plp {
        id: 2,
        rate: Rate::R2_3,
        modulation: Modulation::Qam16,
        blocks: 2,
        interleave: 2,
        delete: false,
        bits_per_second: 1_500_000,
        ..FIRST_PLP
    },
    Plp {
        id: 3,
        plp_type: PlpType::Type2,
        group: 2,
        rate: Rate::R3_5,
        modulation: Modulation::Qam64,
        blocks: 2,
        bits_per_second: 1_600_000,
        ..FIRST_PLP
    },
];

const TRIAL_L1: L1Numbers = L1Numbers {
    bwt_ext: 0,
    s2: 6,
    guard: 1,
    papr: 0,
    l1_mod: 1,
    l1_cod: 0,
    l1_fec: 0,
    post_size: 1_000,
    pilot: 6,
    tx_id: 0,
    symbols: 59,
    regen: 0,
};

fn trial_plps(alloc: Global) -> Result<PlpList, OutOfMemory>
    ensures { IfOk result (λ plps. plps ≡ trial_plps) }
{
    let mut plps = PlpList::new(alloc);
    let [first, second, third] = TRIAL_PLPS;
    plps.push(first)?;
    plps.push(second)?;
    plps.push(third)?;
    Ok(plps)
}

fn trial_config(alloc: Global) -> Result<Config, OutOfMemory>
    ensures { IfOk result (λ config. config ≡ trial_config) }
{
    Ok(Config {
        band: Band::Mhz8,
        ticks: 100_000,
        frames: 2,
        cells: 60_000,
        seconds: 700_000_000,
        subseconds: 0,
        utco: 5,
        pid: 256,
        cell_id: 1,
        network_id: 2,
        system_id: 3,
        frequency: 474_000_000,
        l1: TRIAL_L1,
        sub_slices: 5,
        plps: trial_plps(alloc)?,
    })
}

/// The plan of the network of a trial.
pub fn trial_plan(alloc: Global) -> Result<Plan, TrialStop>
    ensures { IfOk result (λ plan. plan ≡ trial_config) }
{
    // That the network satisfies all rules and tests is not proved.
    let valid = validate(trial_config(alloc)?).map_err(|_| TrialStop::Broken)?;
    fits(valid).map_err(|_| TrialStop::Broken)
}
