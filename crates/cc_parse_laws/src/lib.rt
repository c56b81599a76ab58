//! What holds of reading a file from left to right: what is read is a file of the grammar, each file of the grammar is
//! read, and so tokens are the spelling of one orderly tree at most.
//!
//! Laws alone: each is the contract of a function without a body, in [`laws`]. `cc_grammar` has the definitions.
#![tactic(auto)]

pub mod laws;
