//! Generated projects: chains of components of any length, in which each function calls the one of the next component.
//!
//! [`generate`] makes the project of a number from 1 to 60 as files in memory: the project file `p.toml`, and a C file for
//! each component.
#![tactic(auto)]

mod fault;
mod project;
mod texts;

pub use fault::GenFault;
pub use project::generate;
