//! Runs of tests over the acts of a program, told to a watcher (docs/runs.md).
//!
//! [`run_acts`] runs a test: it makes the static objects and the string literals, and then runs the test's calls on the machine
//! of `cc_interp_step`, step by step ([`run_machine`]). What the watcher was told is said in `specs/Tested.antt` and
//! `specs/Ran.antt`, the run of a test in `specs/Tests.antt`.
#![tactic(auto)]

mod rounds;
mod run;
mod start;
mod tell;

pub use rounds::run_machine;
pub use run::run_acts;
