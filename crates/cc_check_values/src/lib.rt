//! The rules on initialisers: their shape, what a static object begins with, and whether each value fits.
//!
//! The expressions of the initialiser are judged already: their types stand in [`cc_symbols::Findings`] by number. Nothing
//! here takes memory, and no call takes time that grows with the length of an array.
#![tactic(auto)]

mod length;
mod scalar;
mod shape;
mod statics;
mod typed;

pub use length::told_length;
pub use shape::check_value;
pub use typed::is_typed;
