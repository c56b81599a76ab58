//! Programs of the first form, their control points and couplings, what a run of one is, and that no run exercises a
//! coupling that is not listed (docs/first-form.md, docs/soundness.md).
//!
//! The definitions stand in `specs/`: `Program`, `Points` and `Couplings` say what a program is, how its control points
//! follow one another and which calls are couplings; `Runs` has the run, made of `Parts` that tell `Events`; `Exercised`
//! says what the events exercise, `Walks` how they lie on a path through the control points. What is proved of them,
//! listed in `Laws`, are the contracts of the functions in [`laws`]. [`run_events`] runs a small program, with a stack
//! (`Stacks`).
#![tactic(auto)]

mod event;
pub mod laws;
mod machine;
mod run;

pub use event::{End, Event, Site};
pub use machine::{Function, Told};
pub use run::run_events;
