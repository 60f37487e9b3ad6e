// The configuration of a named file.
ghost use Rattle.std.specs.Prelude.{◌≡◌, ◌⊎◌, ◌<◌, ◌≤◌, ◌+◌, List, ℕ, [], false, length, IfOk, IfErr, OnOk, OnErr};
ghost use Rattle.ports.specs.Counts.{MayFailReading};
ghost use Rattle.ports.specs.Desk.{has_run_out};
ghost use Rattle.plp_config.specs.Capacity.{IsPlan};
ghost use Rattle.plp_config.specs.Rules.{AllRules};
ghost use Rattle.config_text.specs.ConfigText.{Spells, CausesFault};
ghost use Rattle.file_run.specs.ConfigFile.{Gives, GivesNone, GivesNoPlan, LacksCapacity};
ghost use Rattle.file_run.specs.Ahead.{ReadsAhead, IsAtEnd};
ghost use Rattle.file_run.specs.TextReading.{RefusesText};

use crate::config_stop::{ConfigCause, ConfigStop};
use crate::input::InBuffer;
use config_text::{LONGEST_TEXT, TextFault};
use plp_config::{Plan, Valid, fits, validate};
use ports::{Desk, DeskFault};
use std::alloc::Global;

// One byte more than a text may have.
const LIMIT: usize = LONGEST_TEXT + 1;

// Reads a text to its end, or until it has too many bytes.
fn read_text<D: Desk>(desk: &mut D, handle: u32, input: &mut InBuffer) -> Result<(), DeskFault>
    requires opened { handle < length (D.state desk.old).opened }
    requires going { has_run_out (D.state desk.old) handle ≡ false }
    requires nothing { input.old ≡ [] }
    ensures reads { ReadsAhead (D.state desk.old) (D.state desk.new) handle input.old input.new }
    ensures few { length input.new ≤ LIMIT }
    ensures end { OnOk result (IsAtEnd (D.state desk.new) handle ⊎ (length input.new ≡ LIMIT)) }
    ensures err { OnErr result (length input.new < LIMIT) }
    ensures counts { MayFailReading (D.state desk.old).counts (D.state desk.new).counts result }
{
    while input.len() < LIMIT {
        let most = (LIMIT - input.len()) as u64;
        if input.read(desk, handle, most)? == 0 {
            return Ok(());
        }
    }
    Ok(())
}

fn refused_text(fault: TextFault) -> ConfigStop
    ensures { (text : List ℕ) → CausesFault text fault → RefusesText text result }
{
    match fault {
        TextFault::Refused { line, why } => ConfigStop::Refused(ConfigCause::Text { line, why }),
        TextFault::OutOfMemory => ConfigStop::OutOfMemory,
    }
}

// The configuration that a text spells, if it satisfies the rules.
fn valid_config(alloc: Global, text: &[u8]) -> Result<Valid, ConfigStop>
    ensures ok { IfOk result (λ c. Spells text.now c × AllRules c) }
    ensures err { IfErr result (RefusesText text.now) }
{
    let config = match config_text::read(alloc, text) {
        Ok(config) => config,
        Err(fault) => return Err(refused_text(fault)),
    };
    match validate(config) {
        Ok(valid) => Ok(valid),
        Err((_, fault)) => Err(ConfigStop::Refused(ConfigCause::Rule {
            rule: fault.rule,
            plp: fault.plp,
        })),
    }
}

// Tries the capacity tests.
fn plan_of(valid: Valid) -> Result<Plan, ConfigStop>
    ensures ok { IfOk result (λ plan. (plan ≡ valid) × IsPlan plan) }
    ensures err { IfErr result (LacksCapacity valid) }
{
    match fits(valid) {
        Ok(plan) => Ok(plan),
        Err((_, fault)) => Err(ConfigStop::Lacks(fault)),
    }
}

/// Reads the configuration of a named file, tries its rules, and then the capacity tests. It answers as [`read_config`]
/// does, and `Lacks` if a test fails.
pub fn read_plan<D: Desk>(alloc: Global, name: &str, desk: &mut D) -> Result<Plan, ConfigStop>
    ensures ok { IfOk result (λ plan. Gives (D.state desk.old) (D.state desk.new) name.now plan × IsPlan plan) }
    ensures err { IfErr result (GivesNoPlan (D.state desk.old) (D.state desk.new) name.now) }
{
    plan_of(read_config(alloc, name, desk)?)
}

/// Reads the configuration of a named file, and tries its rules.
pub fn read_config<D: Desk>(alloc: Global, name: &str, desk: &mut D) -> Result<Valid, ConfigStop>
    ensures ok { IfOk result (Gives (D.state desk.old) (D.state desk.new) name.now) }
    ensures err { IfErr result (GivesNone (D.state desk.old) (D.state desk.new) name.now) }
{
    let Ok(mut input) = InBuffer::open(alloc) else {
        return Err(ConfigStop::OutOfMemory);
    };
    let Ok(handle) = desk.open(name) else {
        return Err(ConfigStop::ReadFault);
    };
    let Ok(()) = read_text(desk, handle, &mut input) else {
        return Err(ConfigStop::ReadFault);
    };
    valid_config(alloc, input.as_bytes())
}
