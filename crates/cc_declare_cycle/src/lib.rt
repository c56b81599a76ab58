//! The walk over declarations and expressions, which lead into one another: an array's length is an expression, an
//! expression has type names in its casts, and these have specifiers with members and declarators.
//!
//! [`specifiers`] and [`declarator`] give what a declaration says, [`expression`] the type of a full expression and
//! [`constant_of`] its value. Each goes over its tree once, in the order of the text. What is declared, made and broken is in
//! the [`Checker`](cc_declare::Checker); the rules are its methods. `docs/declarations.md` has the chapter.
#![tactic(auto)]

mod cycle;
mod values;

pub use cycle::{constant_of, declarator, expression, specifiers};
