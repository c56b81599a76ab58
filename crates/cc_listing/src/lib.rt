//! The listing of a program: all its couplings, in order, and their table.
//!
//! [`listing_of`] goes from the program and its control points over the points-to facts to the rows of all four kinds;
//! [`list_text`] is what `list` prints. docs/rows.md has the chapter.
#![tactic(auto)]

mod callings;
mod couplings;
mod fault;
mod gathered;
mod listing;
mod rows;
mod stays;

pub use fault::ListFault;
pub use listing::{list_text, listing_of};
pub use rows::MAX_ROWS;
