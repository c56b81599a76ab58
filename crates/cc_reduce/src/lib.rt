//! Which tests can be left out, and in which order tests add most.
//!
//! [`reduce`] goes from the last test to the first and leaves out a test whose rows are all exercised by the other tests
//! that are kept so far. [`order`] takes at each place the test that adds most rows to those of the earlier places.
//! [`reduce_csv`] and [`order_csv`] write what they answer as tables. Rows are the numbers below the listing's length: a
//! number past them is no row.
#![tactic(auto)]

mod covering;
pub mod laws;
mod ordering;
mod records;
mod reducing;
mod tables;

pub use ordering::{TestOrder, order};
pub use reducing::{TestMarks, reduce};
pub use tables::{order_csv, reduce_csv};
