//! The points-to facts of a view: exactly what follows by the rules.
//!
//! [`solve_view`] gives them as pairs of holders and targets, or says that they are too many. The law stands in
//! `specs/Law.antt`: the pairs of values and slots are the facts, and those of lvalues their parts. docs/facts.md has the
//! chapter.
#![tactic(auto)]

mod problem;
mod solving;
mod watching;

pub use solving::solve_view;
