// Laws of the shape. Their functions do nothing.
ghost use Rattle.scheduler.specs.Laws.{ShapeFitsL1, ShapeStandsInOrder, ShapeHasCounts, ShapeAlone};

/// Each number of a shape fits its field of L1-post.
pub fn field_law()
    ensures { ShapeFitsL1 }
{}

/// The PLPs of a shape stand one behind the other, within the frame.
pub fn order_law()
    ensures order { ShapeStandsInOrder }
    ensures counts { ShapeHasCounts }
{}

/// Where each interleaving frame is carried by one frame, this frame has all cells of its blocks.
pub fn alone_law()
    ensures { ShapeAlone }
{}
