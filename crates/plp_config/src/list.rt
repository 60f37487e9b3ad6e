// The PLPs of a network.
ghost use Rattle.std.specs.Prelude.{◌≡◌, ◌≤◌, ◌↔◌, List, [], ◌∷◌, ◌++◌, length, IsNone, IfSome, OnOk, OnErr, slice_get};
ghost use Rattle.std.specs.Option.{option_copied};
ghost use Rattle.plp_config.specs.Plps.{plp_at};
ghost use Rattle.plp_config.specs.declared.plp.Plp.{Plp};

use crate::plp::Plp;
use bit_slice::OutOfMemory;
use std::alloc::Global;
use std::marker::Model;

/// PLPs of a network at most: NUM_PLP has eight bits (EN 302 755, clause 7.2.3.1).
pub const MOST_PLPS: usize = 255;

/// The PLPs of a network, in configuration order.
#[derive(Debug, Drop)]
pub struct PlpList {
    plps: Vec<Plp>,
}

impl Model for PlpList {
    ghost Value = { List Plp };

    ghost view = { λ l. l.plps.items };
}

impl PlpList {
    /// No PLP.
    pub fn new(alloc: Global) -> PlpList
        ensures { result ≡ [] }
    {
        PlpList {
            plps: Vec::new(alloc),
        }
    }

    /// One more PLP, behind the others. After `OutOfMemory` the list is unchanged.
    pub fn push(&mut self, plp: Plp) -> Result<(), OutOfMemory>
        ensures ok { OnOk result (self.new ≡ self.old ++ plp ∷ []) }
        ensures err { OnErr result (self.new ≡ self.old) }
    {
        self.plps.push(plp)?;
        Ok(())
    }

    /// The number of PLPs.
    pub fn len(&self) -> usize
        ensures { result ≡ length self.now }
    {
        self.plps.len()
    }

    /// The PLP at a place, `None` past the end.
    pub fn get(&self, place: usize) -> Option<&Plp>
        ensures plp { option_copied result ≡ slice_get self.now place }
        ensures at { IfSome result (λ plp. plp.now ≡ plp_at self.now place) }
        ensures none { IsNone result ↔ (length self.now ≤ place) }
    {
        self.plps.get(place)
    }

    // All PLPs.
    pub(crate) fn as_slice(&self) -> &[Plp]
        ensures { result.now ≡ self.now }
    {
        &self.plps
    }
}
