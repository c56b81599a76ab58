//! What the limit of depth has to do with the token at which reading a file fails. Reading with a greater depth gets as far
//! at least. Whether a token is refused for its depth alone, reading that may be two deeper tells: it gets past the token, or
//! no reading does.
//!
//! Laws alone: each is the contract of a function without a body, in [`laws`]. `cc_grammar` has the definitions.
#![tactic(auto)]

pub mod laws;
