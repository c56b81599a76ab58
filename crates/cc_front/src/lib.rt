//! From the files of a project to its program and its tests.
//!
//! [`front`] takes the bytes of each file in the order of the project, and a shelf for the files that these include: it cuts
//! them into tokens, looks for words that the profile doesn't have, reads the tree, numbers its nodes and checks it; then it
//! links the files and ties the tests to the program. It stops at the first step that is refused, and [`FrontFault`] says why.
//! `docs/front.md` has the chapter.
#![tactic(auto)]

mod built;
mod fault;
mod files;
mod tree;

pub use built::{Built, front};
pub use cc_link::Names;
pub use cc_prep::PrepFault;
pub use fault::{Fault, FrontFault};
