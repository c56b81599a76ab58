//! The tables of couplings as texts: records with commas between their fields, and a header line.
//!
//! [`list_csv`] has a row for each listed coupling, [`score_csv`] the first test of each row too, [`tests_csv`] the rows
//! that each test exercises, [`pairs_csv`] how many rows stand between two components. [`justify`] finds the rows that
//! the project's justifications speak of. All read the program by its numbers, and nothing is out of range: what a number
//! names that the program does not have is empty.
#![tactic(auto)]

mod ends;
mod justified;
mod list;
mod names;
mod pairs;
mod records;
mod rows;
mod score;
mod tests;

pub use justified::{JustifyFault, justify};
pub use list::list_csv;
pub use pairs::pairs_csv;
pub use score::score_csv;
pub use tests::tests_csv;
