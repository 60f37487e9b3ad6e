// In how many frames which PLPs differ, by the lines of `compare`.
use plp_config::Plan;
use std::io::{self, Eprint};
use std::str;

// How many PLP_IDs there are.
const PLP_IDS: usize = 256;

// What stands in the line of a frame that differs, and in that of a PLP in which it does.
const DIFFERS: &str = " is=differs";

const PLP: &str = " plp=";

/// How many frames `compare` tells to differ, and how many of them in which PLP.
#[derive(Drop)]
pub struct Differing {
    frames: u64,
    // By its PLP_ID.
    plps: [u64; PLP_IDS],
}

impl Differing {
    /// None.
    pub fn new() -> Differing {
        Differing {
            frames: 0,
            plps: [0; PLP_IDS],
        }
    }

    fn add_plp(&mut self, plp_id: u8) {
        if let Some(count) = self.plps.get_mut(usize::from(plp_id)) {
            *count = count.saturating_add(1);
        }
    }

    fn take_line(&mut self, line: &str) {
        if line.contains(DIFFERS) {
            self.frames = self.frames.saturating_add(1);
        } else if let Some((_, rest)) = line.split_once(PLP) {
            let (plp_id, _) = rest.split_once(' ').unwrap_or((rest, ""));
            if let Ok(plp_id) = plp_id.parse::<u8>() {
                self.add_plp(plp_id);
            }
        }
    }

    /// Some whole lines were said.
    pub fn take(&mut self, text: &[u8]) {
        for line in str::from_utf8(text).unwrap_or("").lines() {
            self.take_line(line);
        }
    }

    // How many frames differ in a PLP.
    fn count(&self, plp_id: u8) -> u64 {
        self.plps.get(usize::from(plp_id)).copied().unwrap_or(0)
    }

    /// Says of each PLP in how many frames it differs, if it does in one.
    pub fn say(&self, rt: &impl Eprint, plan: &Plan) -> io::Result<()> {
        let plps = &plan.config().plps;
        for place in 0..plps.len() {
            if let Some(plp) = plps.get(place) {
                let count = self.count(plp.id);
                if count > 0 {
                    eprintln!(rt;
                        "PLP {} differs in {count} of the {} frames that differ",
                        plp.id, self.frames
                    )?;
                }
            }
        }
        Ok(())
    }
}
