//! The least set of pairs of a holder and a target that is closed under edges and under what its own pairs ask.
//!
//! Pairs and edges are given; [`Rules`] say which edges and pairs a pair adds. [`solve`] gives the least such set, with a
//! limit on the pairs of the first holders, exactly. Holders that don't count for the limit carry what is between two
//! values. docs/facts.md has the chapter.
#![tactic(auto)]

mod rules;
mod solving;
mod state;

pub use rules::{Edge, Pair, Rules};
pub use solving::solve;
pub use state::{Limits, State, Stop};
