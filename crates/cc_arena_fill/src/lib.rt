//! The walk that puts the nodes of a numbered tree into the arena, each at its number.
//!
//! [`fill_file`] goes through a file in the order of its numbers, once, and puts each node at the end of the arena with the
//! number of the node that it is a part of. The numbers of a node's parts are read from the parts' notes, before they are
//! walked. What it gives is a function of the plain tree (`specs/Filling`), and of a file that is numbered from the arena's
//! count on the arena then holds the tree (`specs/Holding`). docs/arena.md has the chapter.
#![tactic(auto)]

mod declaration;
mod expr;
mod file;
mod lists;
mod numbers;
mod stmt;

pub use file::fill_file;
