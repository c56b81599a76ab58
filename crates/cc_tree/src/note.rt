// What the nodes of a tree say as it is written, and what a name can name.

use crate::ids::{FuncId, VarId};
use crate::stmt::FileTree;
use cc_base::Spot;

/// The tree of a file as it is written: each node has its spot.
pub type Unit = FileTree<Spot>;

/// What a name names.
#[derive(Clone, Copy, Debug, PartialEq, Eq)]
pub enum Referent {
    Function(FuncId),
    Variable(VarId),
    /// An enumeration constant, by its value.
    Constant(i128),
}
