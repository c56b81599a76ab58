//! What the nodes of a program are to its runs: whose component they are of, which arguments a call has, which arguments
//! and returns are names of variables, and whether a call's value is used.
//!
//! All is read from the program's nodes when it is asked for, and nothing is out of range: a number that is no node has no
//! arguments and no name.
#![tactic(auto)]

mod calls;
mod components;
mod names;

pub use calls::{arguments, is_used};
pub use components::{component, home};
pub use names::{named, returned};
