//! The names that are declared at a place, in nested scopes (C17 6.2.1).
//!
//! [`Scopes`] is what a walk over a file keeps for one name space: it enters and leaves blocks, declares names, and asks
//! which declaration a name means. A name is bound to the number of its declaration, and what was declared stands
//! elsewhere. The module `laws` has what holds of the definitions, whatever the code does.
#![tactic(auto)]

mod innermost;
pub mod laws;
mod scopes;
#[cfg(test)]
mod tests;

pub use scopes::Scopes;
