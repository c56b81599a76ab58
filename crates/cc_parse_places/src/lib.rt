//! Where tokens stop being a file. The token at which reading from left to right fails is refused whatever follows it. The
//! tokens before it are the spelling of a cut-off file, and no file and no cut-off file begins with these and the token.
//!
//! Laws alone: each is the contract of a function without a body, in [`laws`]. `cc_grammar` has the definitions.
#![tactic(auto)]

pub mod laws;
