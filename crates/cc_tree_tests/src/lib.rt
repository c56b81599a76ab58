//! Tests of the crates of syntax trees: numbering, the walks over nodes and notes, and the tests of depth.
//!
//! It has no code but tests. One file, built by hand, goes through all of them (`trees.rt`).
#![tactic(auto)]

#[cfg(test)]
mod limits;
#[cfg(test)]
mod nodes;
#[cfg(test)]
mod numbers;
#[cfg(test)]
mod trees;
