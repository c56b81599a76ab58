//! What the points-to rules see of a program: which occurrences are evaluated, in which function, what they initialise, and
//! what each of them is for the rules.
//!
//! [`view_of`] makes the view of a linked program in a few loops over the arena; what comes from the surroundings of a node
//! is made of its parent's answer. docs/facts.md has the chapter.
#![tactic(auto)]

mod functions;
mod initialisers;
pub mod laws;
mod make;
mod paths;
mod seeing;
mod standing;

pub use make::view_of;
pub use standing::Standing;
