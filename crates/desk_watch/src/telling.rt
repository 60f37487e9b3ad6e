// What is told of a run at its end, by what was counted of it.
ghost use Rattle.std.specs.Prelude.{◌<◌, length};

use crate::counts::{Kind, OutCounts, RunCounts};
use crate::input::{Input, InputCounts};
use crate::moments::say_moments;
use crate::notes::say_lacked;
use crate::records::RecordCounts;
use crate::shown::Shown;
use crate::t2mi::T2miCounts;
use plp_config::{MOST_FRAMES, Plan, Plp, PlpType, SUPERFRAME_PERIOD};
use ports::ALONE_HAD_WHOLE;
use std::io::{self, Eprint};

/// How it is told that no frame came from a file.
pub const NONE_CAME: &str = "no frame came from it: ";

// The PLP of an input of a gateway: of the PLPs that have one, the one at this place.
fn plp_of(plan: &Plan, place: usize, common: bool) -> Option<&Plp> {
    let plps = &plan.config().plps;
    let mut left = place;
    for at in 0..plps.len() {
        let plp = plps.get(at)?;
        if common && plp.plp_type == PlpType::Common {
            continue;
        }
        if left == 0 {
            return Some(plp);
        }
        left -= 1;
    }
    None
}

// Says of an input of a gateway how many packets came, and what becomes of null packets.
fn say_packets(rt: &impl Eprint, input: &Input<'_>, plp: Option<&Plp>) -> io::Result<()> {
    let InputCounts::Packets(packets) = &input.counts else {
        return Ok(());
    };
    let file = Shown(input.name);
    match plp {
        Some(plp) if packets.nulls() > 0 && plp.delete => eprintln!(rt;
            "{file}: {packets}; these are deleted, but for each one that 255 deleted ones precede"
        ),
        _ => eprintln!(rt; "{file}: {packets}"),
    }
}

// How many blocks of a PLP so many frames can carry: those of the interleaving frames that begin in them.
fn room_of(plp: &Plp, frames: u64) -> u64 {
    let begun = frames.div_ceil(u64::from(plp.spread.max(1)));
    begun.saturating_mul(u64::from(plp.blocks))
}

// Says how many blocks of each PLP were sent, of those that fit.
fn say_blocks(rt: &impl Eprint, plan: &Plan, sent: &T2miCounts) -> io::Result<()> {
    let plps = &plan.config().plps;
    for place in 0..plps.len() {
        if let Some(plp) = plps.get(place) {
            eprintln!(rt;
                "PLP {}: blocks sent: {}, of {} that {} frames have room for",
                plp.id,
                sent.blocks(plp.id),
                room_of(plp, sent.frames()),
                sent.frames()
            )?;
        }
    }
    Ok(())
}

// The frame with which the first interleaving frame of a PLP begins that wants more than so many packets: by its begin
// more slots are over.
fn first_that_lacks(plan: &Plan, plp: usize, packets: u64) -> Option<u64>
    requires { plp < length plan.now.plps }
{
    let ticks = u64::from(plan.config().ticks);
    let mut low = 0;
    let mut high = MOST_FRAMES;
    for _ in 0..u64::BITS {
        if low >= high {
            break;
        }
        let middle = low + (high - low) / 2;
        if plan.slots_by(plp, middle.saturating_mul(ticks)) > packets {
            high = middle;
        } else {
            low = middle.saturating_add(1);
        }
    }
    let spread = u64::from(plan.spread(plp).max(1));
    let first = low.div_ceil(spread).saturating_mul(spread);
    if first < MOST_FRAMES {
        Some(first)
    } else {
        None
    }
}

impl RunCounts<'_> {
    // Says what was damaged in each file that was read.
    fn say_inputs(&self, rt: &impl Eprint) -> io::Result<()> {
        for input in self.inputs.as_slice() {
            input.say_damage(rt)?;
        }
        Ok(())
    }

    // Says of each input of a gateway what came.
    fn say_feeds(&self, rt: &impl Eprint, common: bool) -> io::Result<()> {
        for (place, input) in self.inputs.as_slice().iter().enumerate() {
            input.say_if_empty(rt)?;
            let plp = self.plan.and_then(|plan| plp_of(plan, place, common));
            if input.packets() != Some(0) {
                say_packets(rt, input, plp)?;
            }
        }
        Ok(())
    }

    fn say_gateway(&self, rt: &impl Eprint, common: bool) -> io::Result<()> {
        self.say_feeds(rt, common)?;
        match (self.plan, &self.out) {
            (Some(plan), OutCounts::T2mi(sent)) => say_blocks(rt, plan, sent),
            _ => Ok(()),
        }
    }

    // Says which frames are muted in OUT, if some are, why, and what to do.
    fn say_muted(&self, rt: &impl Eprint, records: &RecordCounts<'_>) -> io::Result<()> {
        if records.muted().count() == 0 {
            return Ok(());
        }
        eprintln!(rt; "{records}, counted from 0 as `show frames` does")?;
        self.notes.say(rt)?;
        if let Some(input) = self.input(0) {
            self.say_damage_unseen(rt, records, input)?;
        }
        self.say_way_out(rt, records)
    }

    // Says what units do not tell: that IN ends inside a frame, or that bytes in units were damaged.
    fn say_damage_unseen(
        &self,
        rt: &impl Eprint,
        records: &RecordCounts<'_>,
        input: &Input<'_>,
    ) -> io::Result<()> {
        if let Some(frame) = self.last_that_lacks(records) {
            eprintln!(rt;
                "{}: it ends inside frame {frame} of CONFIG, or a packet of that frame was lost",
                Shown(input.name)
            )?;
            if records.muted().count() == 1 {
                return Ok(());
            }
        }
        input.say_whole(rt)
    }

    // The last frame, if it is muted for a packet that is missing, and the one before it is not muted.
    fn last_that_lacks(&self, records: &RecordCounts<'_>) -> Option<u64> {
        if records.ends_muted(1) && !records.ends_muted(2) {
            self.notes.last_that_lacks()
        } else {
            None
        }
    }

    // The frames of as many superframes as a modulator tells apart.
    fn most_lost(&self) -> u64 {
        let frames = self
            .plan
            .map_or(u64::MAX, |plan| u64::from(plan.config().frames));
        frames.saturating_mul(SUPERFRAME_PERIOD)
    }

    // Says what to do if so much was lost in a row that it is not known how much.
    fn say_way_out(&self, rt: &impl Eprint, records: &RecordCounts<'_>) -> io::Result<()> {
        if self.notes.other_moments(0).is_some() {
            say_moments(rt)
        } else if records.ends_muted(self.most_lost()) {
            eprintln!(rt;
                "the end of OUT is muted: if {SUPERFRAME_PERIOD} superframes or more were lost in a row, give what came behind the loss to another run"
            )
        } else {
            Ok(())
        }
    }

    fn say_modulate(&self, rt: &impl Eprint) -> io::Result<()> {
        self.say_inputs(rt)?;
        match &self.out {
            OutCounts::Records(records) => self.say_muted(rt, records),
            _ => Ok(()),
        }
    }

    // Says of which of two files no frame is told, and why.
    fn say_unused(&self, rt: &impl Eprint) -> io::Result<()> {
        let some = [self.said.some_of_first, self.said.some_of_second];
        for (input, has_some) in self.inputs.as_slice().iter().zip(some) {
            if !has_some {
                input.say_none(rt, NONE_CAME)?;
            }
        }
        Ok(())
    }

    // Says of the files of which frames are muted, by the lines, what was damaged in none of their units.
    fn say_muted_of_two(&self, rt: &impl Eprint) -> io::Result<()> {
        let muted = [self.said.muted_of_first, self.said.muted_of_second];
        for (input, is_muted) in self.inputs.as_slice().iter().zip(muted) {
            if is_muted {
                input.say_whole(rt)?;
            }
        }
        Ok(())
    }

    fn say_compare(&self, rt: &impl Eprint) -> io::Result<()> {
        self.say_inputs(rt)?;
        self.say_other_moments(rt)?;
        self.say_muted_of_two(rt)?;
        self.say_unused(rt)?;
        match self.plan {
            Some(plan) => self.differing.say(rt, plan),
            None => Ok(()),
        }
    }

    // Says what either of two feeds had whole, and which frames neither had.
    fn say_merge(&self, rt: &impl Eprint) -> io::Result<()> {
        self.say_inputs(rt)?;
        self.say_other_moments(rt)?;
        for (place, input) in self.inputs.as_slice().iter().enumerate() {
            self.say_merged(rt, place, input)?;
        }
        self.say_not_taken(rt)?;
        match self.notes.of_none() {
            Some(lacked) => say_lacked(rt, lacked),
            None => Ok(()),
        }
    }

    // Says which feeds gave nothing, and why, what the others gave, and which frames were not sent.
    fn say_mend(&self, rt: &impl Eprint) -> io::Result<()> {
        self.say_inputs(rt)?;
        for (place, input) in self.inputs.as_slice().iter().enumerate() {
            if input.has_no_units() {
                input.say_none(rt, NONE_CAME)?;
            } else {
                self.say_whole_frames(rt, place, input, ALONE_HAD_WHOLE)?;
            }
        }
        self.notes.say_others(rt)
    }

    // Says from which frame on null packets stand for the file of a PLP, if no packet of it was left.
    fn say_region(&self, rt: &impl Eprint, plp: usize) -> io::Result<()> {
        let (Some(plan), Some(input)) = (self.plan, self.input(1)) else {
            return Ok(());
        };
        let packets = input.packets().unwrap_or(0);
        if packets == 0 || !self.said.none_left || plp >= plan.config().plps.len() {
            return Ok(());
        }
        match first_that_lacks(plan, plp, packets) {
            Some(frame) => eprintln!(rt;
                "{}: its packets end before frame {frame} of CONFIG; null packets stand for it from there on, if OUT goes on so far",
                Shown(input.name)
            ),
            None => Ok(()),
        }
    }

    fn say_swap(&self, rt: &impl Eprint, plp: Option<usize>) -> io::Result<()> {
        self.say_inputs(rt)?;
        self.say_other_moments(rt)?;
        if let Some(input) = self.input(1) {
            input.say_if_empty(rt)?;
        }
        match plp {
            Some(plp) => self.say_region(rt, plp),
            None => Ok(()),
        }
    }

    /// Says what came of a run that is done, and what was damaged.
    pub fn say_done(&self, rt: &impl Eprint) -> io::Result<()> {
        match self.kind {
            Kind::Nothing => Ok(()),
            Kind::Gateway { common } => self.say_gateway(rt, common),
            Kind::Modulate => self.say_modulate(rt),
            Kind::Receive { .. } => self.say_inputs(rt),
            Kind::Compare => self.say_compare(rt),
            Kind::Merge => self.say_merge(rt),
            Kind::Mend => self.say_mend(rt),
            Kind::Swap { plp } => self.say_swap(rt, plp),
        }
    }

    /// Says why no superframe was found.
    pub fn say_none(&self, rt: &impl Eprint) -> io::Result<()> {
        for input in self.inputs.as_slice() {
            input.say_none(rt, "")?;
        }
        self.say_inputs(rt)
    }
}
