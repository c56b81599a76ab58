//! A pass that numbers the nodes of a syntax tree as it is written.
//!
//! [`number_file`] and [`number_expr`] make a tree of the same shape with a [`Counted`] in each node: its spot, and its
//! number. A node comes before its parts, and its parts come from left to right. The numbers of a file begin where the
//! caller says, so that one count can go over many files.
#![tactic(auto)]

mod boxes;
mod declaration;
mod expr;
mod file;
mod note;
mod stmt;

pub use expr::number_expr;
pub use file::number_file;
pub use note::Counted;
