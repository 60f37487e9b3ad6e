// Cells of a run that are gone past at once, without a step for each.
ghost use Rattle.std.specs.Prelude.{◌≡◌, ◌<◌, ◌≤◌, ◌*◌, ◌+◌};
ghost use Rattle.cell_map.specs.Runs.{IsInside, IsCut, IsAtBlock};

use crate::places::Cell;
use crate::runs::{Run, cell_of};

/// Cells at successive addresses: of successive blocks, of each block as many, and from each cell of a block to the
/// next the same distance.
#[derive(Clone, Copy, Debug, PartialEq, Eq)]
pub struct Strip {
    /// The first cell.
    pub first: Cell,
    /// From a cell of a block to the next one.
    pub stride: u32,
    /// Cells of each block.
    pub columns: u32,
    /// How many blocks.
    pub blocks: u32,
}

/// What stands at successive addresses.
#[derive(Clone, Copy, Debug, PartialEq, Eq)]
pub enum Stretch {
    /// So many dummy cells.
    Dummy(u32),
    /// Cells of blocks.
    Blocks(Strip),
}

/// A strip of a run, and the run behind it.
#[derive(Clone, Copy)]
pub struct Cut {
    pub strip: Strip,
    pub rest: Run,
}

// The run at the first column of a block of its row, or of the next row behind the last block.
fn at_block(run: Run, block: u32, left: u32) -> Run
    requires block { block ≤ run.size }
    requires some { 0 < run.size }
    requires row { run.row < run.rows }
    ensures { IsAtBlock run block left result }
{
    if block < run.size {
        return Run {
            left,
            column: 0,
            block,
            ..run
        };
    }
    Run {
        left,
        column: 0,
        block: 0,
        row: run.row + 1,
        ..run
    }
}

// The next cells of a block that is its own TI-block, and has one column.
fn cut_plain(run: Run, limit: u32) -> Cut
    requires inside { IsInside run }
    requires plain { (run.columns ≡ 1) × (run.size ≡ 1) }
    requires limit { (0 < limit) × (limit ≤ run.left) }
    ensures { IsCut run limit result }
{
    let strip = Strip {
        first: cell_of(run),
        stride: 1,
        columns: limit,
        blocks: 1,
    };
    let rest = Run {
        left: run.left - limit,
        row: run.row + limit,
        ..run
    };
    Cut { strip, rest }
}

// The next cells of the block, in a row.
fn cut_block(run: Run, limit: u32) -> Cut
    requires inside { IsInside run }
    requires limit { (0 < limit) × (limit ≤ run.left) }
    ensures { IsCut run limit result }
{
    let columns = limit.min(run.columns - run.column);
    let strip = Strip {
        first: cell_of(run),
        stride: run.rows,
        columns,
        blocks: 1,
    };
    let left = run.left - columns;
    let column = run.column + columns;
    if column == run.columns {
        return Cut {
            strip,
            rest: at_block(run, run.block + 1, left),
        };
    }
    Cut {
        strip,
        rest: Run {
            left,
            column,
            ..run
        },
    }
}

// The next blocks of a row, each whole.
fn cut_blocks(run: Run, whole: u32) -> Cut
    requires inside { IsInside run }
    requires column { run.column ≡ 0 }
    requires whole { (0 < whole) × (whole * run.columns ≤ run.left) }
    ensures { IsCut run (whole * run.columns) result }
{
    let blocks = whole.min(run.size - run.block);
    let strip = Strip {
        first: cell_of(run),
        stride: run.rows,
        columns: run.columns,
        blocks,
    };
    let left = run.left - blocks * run.columns;
    Cut {
        strip,
        rest: at_block(run, run.block + blocks, left),
    }
}

/// A strip of the next cells of a run, `most` at most.
pub fn split(run: Run, most: u32) -> Cut
    requires inside { IsInside run }
    requires some { 0 < most }
    ensures { IsCut run most result }
{
    let limit = run.left.min(most);
    if run.columns == 1 && run.size == 1 {
        return cut_plain(run, limit);
    }
    let whole = limit / run.columns;
    if run.column == 0 && whole > 0 {
        return cut_blocks(run, whole);
    }
    cut_block(run, limit)
}
