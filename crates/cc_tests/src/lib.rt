//! The project's tests, tied to the functions of its program.
//!
//! [`bind_tests`] gives each call of a test the entry that it names, or the first call that breaks one of the rules B1 to
//! B3. What an entry takes stands in `specs/Entries.antt`, the rules in `specs/Rules.antt`.
#![tactic(auto)]

mod bind;
mod call;
mod entry;
mod fault;
pub mod rule;

pub use bind::bind_tests;
pub use fault::TestFault;
