//! The points-to facts of a linked program.
//!
//! [`solve`] gives exactly the facts that follow by the rules (`cc_points_base`, `specs/Facts.antt`) from what the rules see
//! of the program (`cc_points_view`, `specs/Views.antt`), or says that they are more than 4,194,304. docs/facts.md has the
//! chapter.
#![tactic(auto)]

mod keep;
mod solving;

pub use solving::{PointsFault, solve};
