//! The call, parameter and return rows: which calls lead into another component, which definitions they hand over, and which
//! reads take them.
//!
//! [`first_readers`] finds who reads each formal first, [`sources`] which definitions reach the reads that arguments and
//! returns name, [`handing`] which arguments hand something over. [`listed_calls`] gives the rows.
#![tactic(auto)]

mod first;
mod found;
mod giving;
mod group;
mod listed;
mod live;
mod number;
mod onward;
mod rows;
mod source;

pub use first::first_readers;
pub use found::{source_rows, taken_rows};
pub use listed::{call_rows, listed_calls, parameter_rows, return_rows};
pub use onward::handing;
pub use source::sources;
