// The cells of a frame in the order of their addresses.
ghost use Rattle.std.specs.Prelude.{◌≡◌, ◌+◌, ◌<◌, ◌≤◌, length};
ghost use Rattle.std.specs.FinMap.{get};
ghost use Rattle.cell_map.specs.CellMap.{Passes, cell_map};
ghost use Rattle.cell_map.specs.Stretches.{stretch_len, HasStretch};

use crate::places::Cell;
use crate::runs::{Run, cell_of, step};
use crate::search::{FIRST_PLP, Mark, dummies, find};
use crate::strips::{Stretch, split};
use plp_config::Plan;
use scheduler::Shape;
use std::marker::Model;

/// The cells of a frame by their addresses, from 0 on. The PLPs are gone over once a run of cells
/// that follow from one another, and once a row of dummy cells.
#[derive(Drop)]
pub struct Cells<'a> {
    plan: &'a Plan,
    shape: &'a Shape,
    frame_idx: u8,
    address: u32,
    // Cells in hand, from the address on.
    run: Run,
    // The PLP of the last run: the search for the next one begins there.
    mark: Mark,
    // Addresses from this one on that are known to be dummy.
    dummy: u32,
}

impl<'a> Model for Cells<'a> {
    ghost use Rattle.cell_map.specs.Reading.{Reading};
    ghost use Rattle.cell_map.specs.Runs.{IsReading};

    ghost Value = { Reading };

    ghost view = { λ r. record {
      config = r.plan.now;
      shape = r.shape.now;
      frame_idx = r.frame_idx;
      address = r.address;
    } };

    ghost invariant = { λ r. IsReading r.plan.now r.shape.now r.frame_idx r.address r.run r.mark r.dummy };
}

impl<'a> Cells<'a> {
    ghost use Rattle.cell_map.specs.Reading.{reading_at, next_address};

    /// All cells of a frame, which is told by its number in the superframe: the next address is 0.
    pub fn new(plan: &'a Plan, shape: &'a Shape, frame_idx: u8) -> Cells<'a>
        requires plps { length shape.now.counts ≡ length plan.now.plps }
        requires passes { Passes plan.now shape.now }
        ensures { result ≡ reading_at plan.now shape.now frame_idx 0 }
    {
        Cells::resume(plan, shape, frame_idx, 0)
    }

    /// The cells of a frame from an address on.
    pub fn resume(plan: &'a Plan, shape: &'a Shape, frame_idx: u8, address: u32) -> Cells<'a>
        requires plps { length shape.now.counts ≡ length plan.now.plps }
        requires passes { Passes plan.now shape.now }
        requires inside { address ≤ plan.now.cells }
        ensures { result ≡ reading_at plan.now shape.now frame_idx address }
    {
        let _config = plan.config();
        let run = Run {
            left: 0,
            first: 0,
            rows: 0,
            columns: 0,
            size: 0,
            row: 0,
            block: 0,
            column: 0,
        };
        Cells {
            plan,
            shape,
            frame_idx,
            address,
            run,
            mark: FIRST_PLP,
            dummy: 0,
        }
    }

    /// How many addresses are left.
    pub fn left(&self) -> u32
        ensures { result + self.now.address ≡ self.now.config.cells }
    {
        self.plan.config().cells - self.address
    }

    /// The cell at the next address, `None` if it is dummy. Not an iterator's `next`: the end
    /// is when `left` answers 0.
    pub fn next_cell(&mut self) -> Option<Cell>
        requires { self.old.address < self.old.config.cells }
        ensures cell { result ≡ get (cell_map self.old.config self.old.shape self.old.frame_idx) self.old.address }
        ensures next { self.new ≡ next_address self.old }
    {
        if self.run.left > 0 {
            let cell = cell_of(self.run);
            self.run = step(self.run);
            self.address += 1;
            return Some(cell);
        }
        if self.dummy > 0 {
            self.dummy -= 1;
            self.address += 1;
            return None;
        }
        match find(
            self.plan,
            self.shape,
            self.frame_idx,
            self.address,
            self.mark,
        ) {
            Some(found) => {
                self.run = step(found.run);
                self.mark = found.mark;
                self.address += 1;
                Some(cell_of(found.run))
            }
            None => {
                self.address += 1;
                self.dummy = dummies(self.plan, self.shape, self.frame_idx, self.address);
                None
            }
        }
    }

    /// What stands at the next addresses, `most` at most, as far as it is told at once. Goes past them.
    pub fn next_stretch(&mut self, most: u32) -> Stretch
        requires some { 0 < most }
        requires inside { self.old.address + most ≤ self.old.config.cells }
        ensures some { 0 < stretch_len result }
        ensures most { stretch_len result ≤ most }
        ensures cells { HasStretch self.old.config self.old.shape self.old.frame_idx self.old.address result }
        ensures next { self.new ≡ reading_at self.old.config self.old.shape self.old.frame_idx
            (self.old.address + stretch_len result) }
    {
        if self.run.left > 0 {
            let next = split(self.run, most);
            self.run = next.rest;
            self.address += next.strip.columns * next.strip.blocks;
            return Stretch::Blocks(next.strip);
        }
        if self.dummy > 0 {
            let count = self.dummy.min(most);
            self.dummy -= count;
            self.address += count;
            return Stretch::Dummy(count);
        }
        match find(
            self.plan,
            self.shape,
            self.frame_idx,
            self.address,
            self.mark,
        ) {
            Some(found) => {
                let next = split(found.run, most);
                self.run = next.rest;
                self.mark = found.mark;
                self.address += next.strip.columns * next.strip.blocks;
                Stretch::Blocks(next.strip)
            }
            None => {
                self.address += 1;
                self.dummy = dummies(self.plan, self.shape, self.frame_idx, self.address);
                Stretch::Dummy(1)
            }
        }
    }
}
