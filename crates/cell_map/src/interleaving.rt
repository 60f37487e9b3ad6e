// The time interleaver.
ghost use Rattle.std.specs.Prelude.{ℕ, ◌≡◌, ◌<◌, ◌≤◌, ◌*◌, ◌+◌, ◌/◌, ◌%◌, ◌^◌};
ghost use Rattle.cell_map.specs.Interleaver.{ti_block_of as ti_block_is, position as position_is};

/// Blocks that are interleaved together.
#[derive(Clone, Copy)]
pub struct TiBlock {
    /// Its first block, counted from 0 in its PLP.
    pub first: u32,
    /// How many blocks it has.
    pub size: u32,
}

/// A cell of a block of a PLP.
#[derive(Clone, Copy)]
pub struct Place {
    pub block: u32,
    pub cell: u32,
}

/// The TI-block of a block.
pub fn ti_block_of(blocks: u32, length: u32, block: u32) -> TiBlock
    requires some { 0 < length }
    requires few { length < 2 ^ 16 }
    requires inside { block < blocks }
    requires small { blocks < 2 ^ 10 }
    ensures value { result ≡ ti_block_is blocks length block }
    ensures before { result.first ≤ block }
    ensures behind { block < result.first + result.size }
    ensures whole { result.first + result.size ≤ blocks }
{
    // The blocks in TI-blocks of this size. Behind them each has one block more (EN 302 755, clause 6.5).
    let size = blocks / length;
    let low = (length - blocks % length) * size;
    if block < low {
        TiBlock {
            first: block / size * size,
            size,
        }
    } else {
        TiBlock {
            first: low + (block - low) / (size + 1) * (size + 1),
            size: size + 1,
        }
    }
}

/// The position of a cell of a block among the cells of its PLP in its interleaving frame. `length` is the number of
/// TI-blocks, the configured interleaver length; 0 leaves the order.
pub fn position(cells: u32, length: u32, blocks: u32, block: u32, cell: u32) -> u32
    requires fifth { cells % 5 ≡ 0 }
    requires few { length < 2 ^ 16 }
    requires block { block < blocks }
    requires cell { cell < cells }
    requires small { blocks < 2 ^ 10 }
    requires short { cells < 2 ^ 15 }
    ensures value { result ≡ position_is cells length blocks block cell }
    ensures inside { result < blocks * cells }
{
    if length == 0 {
        return block * cells + cell;
    }
    let own = ti_block_of(blocks, length, block);
    let rows = cells / 5;
    own.first * cells + cell % rows * (5 * own.size) + 5 * (block - own.first) + cell / rows
}

/// The cell at a position.
pub fn place_at(cells: u32, length: u32, blocks: u32, at: u32) -> Place
    requires fifth { cells % 5 ≡ 0 }
    requires few { length < 2 ^ 16 }
    requires inside { at < blocks * cells }
    requires small { blocks < 2 ^ 10 }
    requires short { cells < 2 ^ 15 }
    ensures block { result.block < blocks }
    ensures cell { result.cell < cells }
    ensures value { position_is cells length blocks result.block result.cell ≡ at }
    ensures only { (b q : ℕ) → b < blocks → q < cells → position_is cells length blocks b q ≡ at
        → (b ≡ result.block) × (q ≡ result.cell) }
{
    if length == 0 {
        return Place {
            block: at / cells,
            cell: at % cells,
        };
    }
    let ti_block = ti_block_of(blocks, length, at / cells);
    let rows = cells / 5;
    let rest = at - ti_block.first * cells;
    let row = rest / (5 * ti_block.size);
    let column = rest % (5 * ti_block.size);
    Place {
        block: ti_block.first + column / 5,
        cell: column % 5 * rows + row,
    }
}
