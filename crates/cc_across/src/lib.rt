//! Which control point may come next after which, over calls and returns.
//!
//! [`calls_of`] finds which functions are live, the evaluated calls in them, and which functions each of these may call, by
//! the graph of control points and the table of facts. [`next_across`] gives for each point those that come next: into the
//! functions that a call may call and out of them, past the calls of functions of the environment, and within functions.
//! docs/points.md has the chapter.
#![tactic(auto)]

mod asked;
mod calls;
pub mod laws;
mod owners;
mod pairs;
mod reach;
mod sites;
mod steps;

pub use calls::{Calls, calls_of};
pub use steps::next_across;
