// Cells whose places follow from one another, without a division for each.
ghost use Rattle.std.specs.Prelude.{◌≡◌, ◌<◌, ◌≤◌, ◌*◌, ◌+◌, ◌^◌, ◌%◌};
ghost use Rattle.cell_map.specs.Runs.{RunsFrom, Steps};

use crate::interleaving::ti_block_of;
use crate::places::Cell;

/// A run within a TI-block of blocks. Each block is written in columns, and the TI-block is read row by row.
#[derive(Clone, Copy)]
pub struct Run {
    // Cells to come.
    pub left: u32,
    // The ordinal of the TI-block's first block.
    pub first: u32,
    // The TI-block: the rows, the columns of a block, and the blocks.
    pub rows: u32,
    pub columns: u32,
    pub size: u32,
    // The next cell: its row, its block in the TI-block, and its column.
    pub row: u32,
    pub block: u32,
    pub column: u32,
}

// The run at a position, without interleaving: a block is a TI-block of one column.
fn plain_run(cells: u32, blocks: u32, before: u32, at: u32, limit: u32) -> Run
    requires inside { at < blocks * cells }
    requires small { blocks < 2 ^ 10 }
    requires short { cells < 2 ^ 15 }
    requires before { before < 2 ^ 20 }
    requires some { 0 < limit }
    ensures { RunsFrom cells 0 blocks before at limit result }
{
    let row = at % cells;
    Run {
        left: limit.min(cells - row),
        first: before + at / cells,
        rows: cells,
        columns: 1,
        size: 1,
        row,
        block: 0,
        column: 0,
    }
}

// The same with interleaving.
fn interleaved_run(cells: u32, length: u32, blocks: u32, before: u32, at: u32, limit: u32) -> Run
    requires fifth { cells % 5 ≡ 0 }
    requires length { 0 < length }
    requires few { length < 2 ^ 16 }
    requires inside { at < blocks * cells }
    requires small { blocks < 2 ^ 10 }
    requires short { cells < 2 ^ 15 }
    requires before { before < 2 ^ 20 }
    requires some { 0 < limit }
    ensures { RunsFrom cells length blocks before at limit result }
{
    let ti_block = ti_block_of(blocks, length, at / cells);
    let rest = at - ti_block.first * cells;
    let place = rest % (5 * ti_block.size);
    Run {
        left: limit.min(ti_block.size * cells - rest),
        first: before + ti_block.first,
        rows: cells / 5,
        columns: 5,
        size: ti_block.size,
        row: rest / (5 * ti_block.size),
        block: place / 5,
        column: place % 5,
    }
}

/// The run at a position, of `limit` cells at most.
pub fn run_at(cells: u32, length: u32, blocks: u32, before: u32, at: u32, limit: u32) -> Run
    requires fifth { cells % 5 ≡ 0 }
    requires few { length < 2 ^ 16 }
    requires inside { at < blocks * cells }
    requires small { blocks < 2 ^ 10 }
    requires short { cells < 2 ^ 15 }
    requires before { before < 2 ^ 20 }
    requires some { 0 < limit }
    ensures { RunsFrom cells length blocks before at limit result }
{
    if length == 0 {
        plain_run(cells, blocks, before, at, limit)
    } else {
        interleaved_run(cells, length, blocks, before, at, limit)
    }
}

/// The run behind its next cell.
pub fn step(run: Run) -> Run
    requires left { 0 < run.left }
    requires block { run.block < run.size }
    requires column { run.column < run.columns }
    requires row { run.row < 2 ^ 15 }
    requires columns { run.columns ≤ 5 }
    requires size { run.size < 2 ^ 10 }
    ensures { Steps run result }
{
    let left = run.left - 1;
    if run.column + 1 < run.columns {
        return Run {
            left,
            column: run.column + 1,
            ..run
        };
    }
    if run.block + 1 < run.size {
        return Run {
            left,
            column: 0,
            block: run.block + 1,
            ..run
        };
    }
    Run {
        left,
        column: 0,
        block: 0,
        row: run.row + 1,
        ..run
    }
}

/// The next cell of a run.
pub fn cell_of(run: Run) -> Cell
    requires few { (run.rows < 2 ^ 15) × (run.size < 2 ^ 10) × (run.columns ≤ 5) × (run.first < 2 ^ 21) }
    requires row { run.row < run.rows }
    requires block { run.block < run.size }
    requires column { run.column < run.columns }
    ensures ordinal { result.ordinal ≡ run.first + run.block }
    ensures cell { result.cell ≡ run.column * run.rows + run.row }
{
    Cell {
        ordinal: run.first + run.block,
        cell: run.column * run.rows + run.row,
    }
}
