//! The listed rows of all four kinds, in order, each once, and not too many.
//!
//! [`listed_rows`] takes the steps from point to point, what is known of slots and nodes, who defines, writes and reads which
//! slot at which point, and who may call whom with what. It gives the rows that are listed, ascending, or says that they are
//! too many. [`reach_of`] tells beforehand which points are reachable.
#![tactic(auto)]

mod listed;

pub use cc_listing_shared::{Routes, reach_of};
pub use listed::listed_rows;
