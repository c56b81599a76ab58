//! The table of points-to facts, and what it tells.
//!
//! The value of an occurrence may be a [`Target`], and a slot may hold one; besides, the table has the parts that each lvalue
//! may have. [`Facts`] tells each of these, counts the facts, and goes through them in ascending order. The facts of a
//! program are made by `cc_points`; the calls that add are for tables that are made by hand. docs/facts.md has the chapter.
#![tactic(auto)]

mod facts;
mod order;
mod target;
mod told;

pub use facts::Facts;
pub use target::{Holder, Target};
