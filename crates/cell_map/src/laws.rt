// Laws of the cell map. Their functions do nothing.
ghost use Rattle.cell_map.specs.Laws.{InterleaverFillsOnce, ShapePasses, MapHasEachCell, MapHasOnlyCells};
ghost use Rattle.cell_map.specs.Laws.{DummyHasNoCell};
ghost use Rattle.cell_map.specs.Laws.{CarriedOnce, PartsRepeat, CellsFit, MapAlone};

use plp_config::block_law;
use scheduler::order_law;

/// The interleaver is one to one, and onto.
pub fn interleaver_law()
    ensures { InterleaverFillsOnce }
{}

/// Every shape that `scheduler::shape` gives has a cell map.
pub fn shape_law()
    ensures { ShapePasses }
{
    order_law();
}

/// The map of a frame has each cell that it carries at its address, and nothing else, and the numbers of its cells are
/// small.
/// Each cell is carried in one frame of its interleaving frame.
pub fn map_law()
    ensures each { MapHasEachCell }
    ensures only { MapHasOnlyCells }
    ensures dummy { DummyHasNoCell }
    ensures once { CarriedOnce }
    ensures parts { PartsRepeat }
    ensures small { CellsFit }
{}

/// Where each interleaving frame is carried by one frame, this frame carries each of its cells, at the address of its
/// position.
pub fn alone_law()
    ensures { MapAlone }
{
    block_law();
}
