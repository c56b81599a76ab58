//! Whether parts of a syntax tree are no deeper than a number.
//!
//! What counts for the depth is said in `specs/Depth.antt` of `cc_tree`. Each test only borrows the tree, takes no memory, asks
//! for no bound on the tree, and goes no deeper than the number.
#![tactic(auto)]

mod fits;

pub use fits::{declarator_fits, expr_fits, specs_fit, type_fits};
