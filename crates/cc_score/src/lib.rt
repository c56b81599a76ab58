//! Marks and what they say: the three criteria, and rows that are both justified and exercised.
//!
//! [`first_tests`] marks each row with the first test whose run exercises it. [`verdicts`] counts the call rows, the
//! definitions of all other rows, and these rows, each with how many are covered and how many justified; [`standing_of`]
//! tells whether that is enough. [`conflict`] finds a row that has both a reason and a mark.
#![tactic(auto)]

mod clash;
mod clashing;
mod criteria;
mod firsts;
mod groups;
mod marks;
mod standings;

pub use clash::Conflict;
pub use clashing::conflict;
pub use criteria::verdicts;
pub use firsts::first_tests;
pub use standings::{Standing, standing_of};
