//! From a linked program and its tests to what `score`, `tests`, `pairs`, `reduce`, `order` and `gen` print.
//!
//! [`report`] lists the couplings of the program, finds the rows that are justified, runs the tests, and makes the text. It
//! refuses where there is no listing ([`ReportFault::List`]), where a justification speaks of no row
//! ([`ReportFault::NoSuchRow`]), and where a test exercises a row with a reason ([`ReportFault::Covered`]); where runs can't be
//! watched ([`ReportFault::Unfit`]) or the machine is lost ([`ReportFault::Lost`]), which should not come; and for want of memory.
//! docs/reports.md has the chapter.
#![tactic(auto)]

mod fault;
mod found;
mod kinds;
mod reporting;
mod steps;
mod texts;

pub use fault::ReportFault;
pub use kinds::{Report, Reported};
pub use reporting::report;
