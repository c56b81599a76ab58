//! Rows of the table of couplings: their order, each once, and not too many.
//!
//! A [`Row`] is a coupling by the numbers of its nodes, and rows are ordered by kind and then by these numbers. Rows are
//! gathered by [`add_row`] as they are found, in any order and some of them again and again; [`limited`] gives them
//! ascending, each once. Both answer that there are too many where there are more different ones than a number, and
//! `add_row` does so before many of them stand in memory.
#![tactic(auto)]

mod gather;
mod order;
mod row;
mod stop;

pub use gather::add_row;
pub use order::{arrange, limited};
pub use row::Row;
pub use stop::Stop;
