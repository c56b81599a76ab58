//! Walks over syntax trees that many crates need: the note of each node, how many nodes a tree has.
//!
//! Each is exact, for a tree with notes of any type. `specs/Nodes.antt` of `cc_tree` says what a node is. In a tree as it is
//! written the notes are spots, so the note of a node is its spot.
#![tactic(auto)]

mod nodes;
mod notes;
mod statement_nodes;

pub use nodes::{declarator_nodes, expr_nodes, specs_nodes, type_nodes};
pub use notes::{
    block_note, constant_note, declaration_note, declarator_note, expr_note, external_note,
    item_note, member_note, spec_note, stmt_note, type_note, value_note,
};
pub use statement_nodes::{
    block_nodes, declaration_nodes, external_nodes, file_nodes, item_nodes, stmt_nodes, value_nodes,
};
