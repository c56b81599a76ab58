//! The rules that hang on what is around an expression or a statement, and what later crates ask of it.
//!
//! [`surroundings`] goes over a stretch of the arena once and gives, for each node, what it has from the nodes around it: an
//! [`Around`], made of its parent's. So there is no recursion, and the time is linear. [`taken`] tells of which variables the
//! address is taken. [`offence_in`] gives the least offence among the rules C28, C29 (of labels), C33, C34, C49 (where
//! `(void *)0` stands) and C52. docs/arena.md has the chapter, docs/rules.md the rules.
#![tactic(auto)]

mod around;
mod below;
mod broken;
mod inherit;
mod look;
mod offences;
mod repeats;
mod variables;

pub use around::{Around, Extent, Standing};
pub use inherit::surroundings;
pub use offences::offence_in;
pub use variables::taken;
