//! The grammar of the profile: which trees are orderly, how they are spelled, and which trees are cut off.
//!
//! Definitions alone: `specs/Outlines.antt` has one clause for each production, from which spelling, order and depth follow,
//! and `specs/Reading.antt` the same grammar as a reader from left to right on lists. What is said of a file stands in the
//! modules `Orderly`, `Spells`, `WellFormed` and `CutOff`, what holds of it in [`laws`], and `proofs/Examples.antt` shows it
//! on texts. `docs/grammar.md` has the chapter.
#![tactic(auto)]

pub mod laws;
