// What is found of expressions.
ghost use Rattle.std.specs.Prelude.{◌≡◌, OnOk};
ghost use Rattle.cc_symbols.specs.Symbols as spec;

use crate::offence::Offence;
use crate::slots::Slots;
use cc_base::Memory;
use cc_types::ExprType;
use std::alloc::Global;

/// What is found of expressions: for each node its type, and the member that it selects by its place in the struct; and the
/// least offence so far.
#[derive(Drop)]
pub struct Findings {
    pub types: Slots<Option<ExprType>>,
    pub members: Slots<Option<u32>>,
    pub least: Option<Offence>,
}

impl Findings {
    /// Nothing, of no nodes. Takes no memory.
    pub fn new(alloc: Global) -> Findings
        ensures { result ≡ spec.nothing_found }
    {
        Findings {
            types: Slots::new(alloc),
            members: Slots::new(alloc),
            least: None,
        }
    }

    /// Places for the nodes below this number.
    pub fn grow(&mut self, nodes: u32) -> Result<(), Memory>
        ensures { OnOk result (self.new ≡ spec.found_grown self.old nodes) }
    {
        self.types.grow(nodes, None)?;
        self.members.grow(nodes, None)
    }
}
