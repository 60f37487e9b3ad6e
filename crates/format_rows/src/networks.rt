// The networks of a script, and the calls that want one.
//
// `network NAME CELLS SUBSLICES FRAMES PLP;PLP..` defines one, each PLP by the words of its line in a configuration,
// joined by commas.
mod maps;
mod queues;
mod signals;

use crate::words::Words;
use config_text::read;
use plp_config::{Plan, fits, validate};
use std::alloc::{AllocError, Global};

// A network without its frames and its PLPs.
const HEAD: &str = "t2-gateway 2\nbandwidth 8\n";

const NAMES: &str =
    "start 700000000 0 5\npid 256\nnetwork 1 2 3 474000000\nl1 0 6 1 0 1 0 0 1000 6 0 59 0\n";

/// Networks by their names.
#[derive(Drop)]
pub(crate) struct Networks {
    alloc: Global,
    names: Vec<String>,
    plans: Vec<Plan>,
}

// The configuration that the words of a row spell.
fn text_of(alloc: Global, words: &Words<'_>) -> Result<String, AllocError> {
    let mut text = String::from_str(alloc, HEAD)?;
    let (cells, slices, frames) = (words.number(2), words.number(3), words.number(4));
    let sizes = format!(in alloc; "frame 100000 {frames} {cells}\n{NAMES}subslices {slices}\n")?;
    text.push_str(sizes.as_str())?;
    for plp in words.word(5).split(';') {
        text.push_str("plp")?;
        for word in plp.split(',') {
            text.push_str(" ")?;
            text.push_str(word)?;
        }
        text.push_str("\n")?;
    }
    Ok(text)
}

fn plan_of(alloc: Global, text: &str) -> Option<Plan> {
    let config = read(alloc, text.as_bytes()).ok()?;
    let valid = validate(config).ok()?;
    fits(valid).ok()
}

impl Networks {
    /// None yet.
    pub(crate) fn new(alloc: Global) -> Networks {
        Networks {
            alloc,
            names: Vec::new(alloc),
            plans: Vec::new(alloc),
        }
    }

    /// Adds a network that has a plan.
    pub(crate) fn add(&mut self, words: &Words<'_>) -> Result<(), AllocError> {
        let text = text_of(self.alloc, words)?;
        if let Some(plan) = plan_of(self.alloc, text.as_str()) {
            self.names
                .push(String::from_str(self.alloc, words.word(1))?)?;
            self.plans.push(plan)?;
        }
        Ok(())
    }

    fn plan(&self, name: &str) -> Option<&Plan> {
        let place = self.names.iter().position(|own| own.as_str() == name)?;
        self.plans.get(place)
    }

    /// What a call answers.
    pub(crate) fn answer(&self, words: &Words<'_>) -> Result<String, AllocError> {
        let Some(plan) = self.plan(words.word(1)) else {
            return format!(in self.alloc; "no such network");
        };
        match words.verb() {
            "shape" | "map" | "cell" => maps::answer(self.alloc, plan, words),
            "queue" => queues::answer(self.alloc, plan, words),
            _ => signals::answer(self.alloc, plan, words),
        }
    }
}
