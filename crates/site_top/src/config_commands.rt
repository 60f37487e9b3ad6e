// `show config FILE` and `plan CONFIG`.
ghost use Rattle.std.specs.Prelude.{◌≡◌};
ghost use Rattle.site_top.specs.ConfigCommands.{ShowsConfig, Plans};
ghost use Rattle.site_top.specs.Outcomes.{config_outcome};
ghost use Rattle.site_top.specs.Saying.{Tells};

use crate::outcome::Outcome;
use crate::plan_lines::push_lines;
use config_text::write;
use file_run::{ConfigStop, Page, read_config, read_plan};
use ports::Desk;
use std::alloc::Global;

/// How a command ends whose file gives no configuration or no plan.
pub fn outcome_of(stop: ConfigStop) -> Outcome
    ensures { result ≡ config_outcome stop }
{
    match stop {
        ConfigStop::Refused(cause) => Outcome::ConfigRefused { cause },
        ConfigStop::Lacks(fault) => Outcome::CapacityRefused {
            test: fault.test,
            plp: fault.plp,
            need: fault.need,
            have: fault.have,
        },
        ConfigStop::ReadFault => Outcome::ReadFault,
        ConfigStop::OutOfMemory => Outcome::OutOfMemory,
    }
}

/// Says a text, which is all that a command says.
pub fn tell<D: Desk>(desk: &mut D, text: &[u8]) -> Outcome
    ensures { Tells (D.state desk.old) (D.state desk.new) text.now result }
{
    match desk.say(text) {
        Ok(()) => Outcome::Done,
        Err(_) => Outcome::WriteFault,
    }
}

/// Says the configuration of a named file, as it is written.
pub fn show_config<D: Desk>(alloc: Global, name: &str, desk: &mut D) -> Outcome
    ensures { ShowsConfig (D.state desk.old) (D.state desk.new) name.now result }
{
    let valid = match read_config(alloc, name, desk) {
        Ok(valid) => valid,
        Err(stop) => return outcome_of(stop),
    };
    match write(alloc, valid.config()) {
        Ok(text) => tell(desk, &text),
        Err(_) => Outcome::OutOfMemory,
    }
}

/// Says what follows from the configuration of a named file.
pub fn plan<D: Desk>(alloc: Global, name: &str, desk: &mut D) -> Outcome
    ensures { Plans (D.state desk.old) (D.state desk.new) name.now result }
{
    let Ok(mut page) = Page::open(alloc) else {
        return Outcome::OutOfMemory;
    };
    match read_plan(alloc, name, desk) {
        Ok(plan) => {
            push_lines(&mut page, &plan);
            tell(desk, page.as_bytes())
        }
        Err(stop) => outcome_of(stop),
    }
}
