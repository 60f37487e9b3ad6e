// The modulator as a machine between files.
ghost use Rattle.std.specs.Prelude.{◌≡◌, ◌≤◌, Some, is_some};
ghost use Rattle.frame_groups.specs.declared.waiting.Waiting.{Waiting};
ghost use Rattle.plp_config.specs.declared.moment.TheConstants.{MOST_FRAMES};
ghost use Rattle.modulator.specs.StandsFor.{next_of, is_waiting, is_finished};

use crate::causes::Causes;
use crate::stop::{ModulateRan, ModulateStop};
use bit_slice::OutOfMemory;
use file_run::{AHEAD, Ending, Machine, Step, Working, events_law};
use frame_groups::Waiting;
use modulator::{Modulator, due_records_law, is_of};
use plp_config::{MOST_FRAMES, Plan};
use ports::Desk;
use std::alloc::Global;

/// A modulator that is fed with the bytes of its input and gives the bytes of the records.
#[derive(Drop)]
pub struct ModulatorMachine<'p> {
    modulator: Modulator<'p>,
    // The record that waits.
    waiting: Option<Waiting>,
    // The input has ended.
    ended: bool,
    // The records that were given whole, and why they are muted.
    ran: ModulateRan,
    causes: Causes,
    ghost waits: { is_some waiting ≡ is_waiting modulator },
    ghost number: { (w : Waiting) → waiting ≡ Some w → w.frame ≡ next_of modulator },
    ghost early: { next_of modulator ≤ MOST_FRAMES },
    ghost finished: { ended ≡ is_finished modulator },
}

impl<'p> Machine for ModulatorMachine<'p> {
    ghost use Rattle.modulator.specs.StandsFor.{left_of, fed_of};
    ghost use Rattle.modulate_run.specs.AsMachine.{Becomes, step_of};
    ghost use Rattle.file_run.specs.FileRun.{read_ahead};
    ghost use Rattle.std.specs.Prelude.{◌+◌};

    ghost Becomes = { Becomes };

    ghost inputs = { λ m. 1 };

    ghost next = { λ m. step_of m.waiting m.ended };

    ghost left = { λ m. left_of m.modulator };

    ghost reach = { λ m input. fed_of m.modulator + read_ahead };

    fn step(&self) -> Step {
        match self.waiting {
            Some(record) if record.frame < MOST_FRAMES => Step::Give,
            None if !self.ended => Step::Read {
                input: 0,
                least: 1,
                most: AHEAD,
            },
            _ => Step::End,
        }
    }

    fn feed(&mut self, _input: usize, bytes: &[u8]) -> usize {
        events_law();
        due_records_law();
        let count = self.modulator.feed(bytes);
        self.waiting = self.modulator.waiting();
        count
    }

    fn end_input(&mut self, _input: usize, _bytes: &[u8]) {
        events_law();
        due_records_law();
        self.modulator.finish();
        self.waiting = self.modulator.waiting();
        self.ended = true;
    }

    fn give(&mut self, out: &mut [u8]) -> usize {
        events_law();
        due_records_law();
        let record = self.waiting.unwrap();
        let count = self.modulator.take(out);
        self.waiting = self.modulator.waiting();
        if !is_of(self.waiting, record.frame) {
            self.ran.add(record);
            self.causes.add(record);
        }
        count
    }

    // Why frames are muted so far.
    fn note<D: Desk>(&self, desk: &mut D) {
        self.causes.note(desk);
    }
}

impl<'p> Ending for ModulatorMachine<'p> {
    ghost use Rattle.modulate_run.specs.AsMachine.{ending_of};

    type Ran = ModulateRan;

    type Stop = ModulateStop;

    ghost ending = { λ m. ending_of m.waiting m.ran };

    fn ending(&self) -> Result<ModulateRan, ModulateStop> {
        if self.waiting.is_some() {
            return Err(ModulateStop::TooManyFrames);
        }
        if self.ran.records == 0 {
            return Err(ModulateStop::NoSuperframe);
        }
        Ok(self.ran)
    }
}

impl<'p> Working for ModulatorMachine<'p> {
    ghost use Rattle.modulator.specs.StandsFor.{config_of};
    ghost use Rattle.modulate_run.specs.ModulateRun.{modulate_work};

    ghost work = { λ m. modulate_work (config_of m.modulator) };

    fn work_law(&self) {
        due_records_law();
    }
}

impl<'p> ModulatorMachine<'p> {
    ghost use Rattle.std.specs.Prelude.{◌≡◌, [], IfOk};
    ghost use Rattle.modulator.specs.StandsFor.{config_of};
    ghost use Rattle.modulate_run.specs.AsMachine.{Becomes};

    /// A modulator of a plan to which nothing was fed, and all its memory.
    pub fn open(alloc: Global, plan: &'p Plan) -> Result<ModulatorMachine<'p>, OutOfMemory>
        ensures config { IfOk result (λ m. config_of m.modulator ≡ plan.now) }
        ensures becomes { IfOk result (λ m. Becomes m [] m) }
    {
        events_law();
        due_records_law();
        let modulator = Modulator::open(alloc, plan)?;
        let waiting = modulator.waiting();
        Ok(ModulatorMachine {
            modulator,
            waiting,
            ended: false,
            ran: ModulateRan {
                first: 0,
                records: 0,
                muted: 0,
            },
            causes: Causes::new(),
        })
    }
}
