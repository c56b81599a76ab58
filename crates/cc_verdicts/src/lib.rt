//! The lines that say whether the criteria are met.
//!
//! [`verdict_lines`] are the three lines below the table of `score`, [`summary_line`] is the line above them that `gen` prints,
//! with [`covered_rows`], and [`are_met`] tells whether all three criteria are met, with justifications or without. What a
//! verdict is, `cc_score` says; docs/reports.md has the texts.
#![tactic(auto)]

mod lines;
mod summary;

pub use lines::{Criterion, are_met, verdict_lines};
pub use summary::{covered_rows, summary_line};
