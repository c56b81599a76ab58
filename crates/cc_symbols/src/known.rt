// What is handed on from file to file.
ghost use Rattle.std.specs.Prelude.{◌≡◌, OnOk, IfOk};
ghost use Rattle.cc_symbols.specs.Symbols as spec;

use crate::findings::Findings;
use crate::symbols::Symbols;
use cc_base::Memory;
use std::alloc::Global;

/// What is known of the files so far, and what is found of their expressions.
#[derive(Drop)]
pub struct Known {
    pub symbols: Symbols,
    pub found: Findings,
}

impl Known {
    /// Nothing is known but the type `char`, and nothing is found.
    pub fn new(alloc: Global) -> Result<Known, Memory>
        ensures { IfOk result (λ known. known ≡ spec.nothing_known) }
    {
        let symbols = Symbols::new(alloc)?;
        let found = Findings::new(alloc);
        Ok(Known { symbols, found })
    }

    /// Places for the nodes below this number.
    pub fn grow(&mut self, nodes: u32) -> Result<(), Memory>
        ensures { OnOk result (self.new ≡ spec.known_grown self.old nodes) }
    {
        self.symbols.grow(nodes)?;
        self.found.grow(nodes)
    }
}
