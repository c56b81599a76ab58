//! Which definitions reach which reads over a clear stretch, 512 definitions at a time.
//!
//! A definition writes a slot at a point, and a read reads a slot at a point. A stretch from the one to the other is clear
//! for the slot where none of its inner points wipes the slot. [`flows`] takes 512 definitions at a time: each point
//! keeps the set of those that reach it and the set of those that it clears, and [`pass_row`] hands a point's set on to a
//! point that comes next, until no set grows.
#![tactic(auto)]

mod flow;
mod mask;
mod order;
mod sweeping;

pub use flow::{Found, Ways, flows};
pub use mask::Touch;
pub use order::order_of;
pub use sweeping::{empty_sets, pass_row, sweep};
