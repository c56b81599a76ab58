// Couplings of a program.
ghost use Rattle.std.specs.Prelude.{◌≡◌, ◌<◌, ◌≤◌, length, slice_get, Some};

use cc_base::List;
use cc_program::FuncId;
use std::marker::Model;

/// A coupling between components. Nodes are the program's; a definition is a node that gives a value: an lvalue that is
/// written, a declarator, a string literal, an argument or a `return` statement.
#[derive(Clone, Copy, Debug, PartialEq, Eq)]
pub enum Coupling {
    /// The call at `site` enters `callee`.
    Call {
        site: u32,
        callee: FuncId,
    },
    /// What `definition` gives a cell of `object` is read by the lvalue `reader`. An object is named by its declarator or
    /// string literal.
    Shared {
        definition: u32,
        reader: u32,
        object: u32,
    },
    /// What `definition` gives argument number `k` of the call at `site`, counted from 1, is read by the lvalue `reader` in
    /// `callee`.
    Parameter {
        definition: u32,
        site: u32,
        k: u32,
        callee: FuncId,
        reader: u32,
    },
    /// What `definition` gives a `return` of `callee` is the value of the call at `site`.
    Return {
        definition: u32,
        site: u32,
        callee: FuncId,
    },
}

/// Couplings, in some order.
pub type CouplingList = List<Coupling>;

/// The couplings of a program that are listed, in the order of the table: its rows. Rows are numbered from 0; the table
/// prints their numbers from 1. There are at most 200,000.
#[derive(Drop)]
pub struct Listing {
    rows: CouplingList,
}

impl Model for Listing {
    ghost use Rattle.std.specs.Prelude.{◌≤◌, List, length};
    ghost use Rattle.cc_meaning.specs.declared.coupling.Coupling.{Coupling};

    ghost Value = { List Coupling };

    ghost view = { λ s. s.rows };

    ghost invariant = { λ s. length s.rows ≤ 200000 };
}

impl Listing {
    /// The listing with these rows. Takes no memory.
    pub fn new(rows: CouplingList) -> Listing
        requires { length rows ≤ 200000 }
        ensures { result ≡ rows }
    {
        Listing { rows }
    }

    /// How many rows there are. Takes no memory.
    pub fn len(&self) -> u32
        ensures { result ≡ length self.now }
    {
        self.rows.len() as u32
    }

    /// The rows, in order. Takes no memory.
    pub fn rows(&self) -> &[Coupling]
        ensures { result.now ≡ self.now }
    {
        self.rows.as_slice()
    }

    /// Row `i`, counted from 0. Takes no memory.
    pub fn row(&self, i: u32) -> &Coupling
        requires { i < length self.now }
        ensures { slice_get self.now i ≡ Some result.now }
    {
        self.rows.get(u64::from(i))
    }
}
