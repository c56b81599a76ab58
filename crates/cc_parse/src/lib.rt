//! The parser: the one tree that tokens spell.
//!
//! [`parse`] gives the orderly tree of a file, or why there is none and at which token. The definitions are those of
//! `cc_grammar`, the laws those of `cc_parse_laws`, `cc_parse_places` and `cc_parse_depths`; `cc_parse_files` reads. [`laws`]
//! has what holds of the answers.
#![tactic(auto)]

mod fault;
mod file;
pub mod laws;

pub use fault::ParseFault;
pub use file::{MAX_DEPTH, parse};
