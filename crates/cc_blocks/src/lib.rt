//! Sets of small numbers as bits: what all later tables of facts and flows stand on.
//!
//! A [`Block`] is a set of numbers below 512, as eight words that are handled at once. A [`Row`] is a set of numbers below
//! 2^32, as the ascending list of its blocks that were touched. [`Rows`] has a row for each holder: a set of pairs of a holder
//! and a target. [`sweep`] tells which of 512 starts reaches each point of a graph. docs/facts.md has the chapter.
#![tactic(auto)]

mod block;
mod cell;
mod counting;
pub mod laws;
mod row;
mod sets;
mod sweeping;
mod table;

pub use crate::block::Block;
pub use cell::Cell;
pub use row::Row;
pub use sweeping::sweep;
pub use table::Rows;
