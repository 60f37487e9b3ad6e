// Laws of the definitions. Their functions do nothing.
ghost use Rattle.ports.specs.Laws.{WritesJoin};

/// Writes one behind another are one.
pub fn writes_law()
    ensures { WritesJoin }
{}
