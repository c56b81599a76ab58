// What a run tells.
use cc_program::FuncId;

/// A cell: one scalar of an object.
#[derive(Clone, Copy, Debug, PartialEq, Eq)]
pub struct Cell {
    /// The node of the object's declarator, or of its string literal.
    pub object: u32,
    /// Which object of this declarator: objects are numbered from 0 as they are made.
    pub instance: u64,
    /// The cell's number in the object, from 0.
    pub index: u32,
}

/// What happens in a run. An activation is one execution of a function's body; activations are numbered from 1 in the order
/// in which they begin, and 0 stands for the initialisation of the static objects. Nodes are the program's.
#[derive(Clone, Copy, Debug, PartialEq, Eq)]
pub enum Event {
    /// A function is entered, by the call at `site` or, with none, by the test itself.
    Enter {
        site: Option<u32>,
        callee: FuncId,
        act: u64,
    },
    /// Argument number `k` of the call at `site`, counted from 1, is written to the formal's cell.
    Pass {
        site: u32,
        k: u32,
        cell: Cell,
        act: u64,
    },
    /// A cell is written, by the lvalue, declarator or string literal `occ`.
    Def {
        occ: u32,
        cell: Cell,
        act: u64,
    },
    /// A cell is read by the lvalue `occ`.
    Use {
        occ: u32,
        cell: Cell,
        act: u64,
    },
    /// An activation ends by the `return` statement `ret` or, with none, at its closing brace (C17 6.9.1p12).
    Leave {
        ret: Option<u32>,
        act: u64,
    },
    /// An automatic object ends.
    Gone {
        instance: u64,
    },
    /// A function of the environment is called by the activation `act`, and has its answer if it has a result.
    Ask {
        site: u32,
        callee: FuncId,
        act: u64,
    },
}
