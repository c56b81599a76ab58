//! Linking: from the checked files of a project to its program, or the first link rule that is broken (docs/linking.md).
//!
//! [`link`] judges the rules of `cc_link_rules`, numbers functions and variables in the order of their first declarators, and
//! makes the tables of the program. [`rule`] has the rules by their numbers, K1 to K10.
#![tactic(auto)]

mod fault;
mod join;
mod numbers;
mod tables;

pub use cc_link_rules::{Names, rule};
pub use fault::LinkFault;
pub use join::link;
