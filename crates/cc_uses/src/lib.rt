//! From a linked program, its control points and its points-to facts to who defines, writes and reads which slot at which
//! point.
//!
//! [`tables_of`] says of each slot of what object it is and which stretches are clear for it, and of each node its component
//! and whether it is an lvalue by name. [`writes_of`] has what assignments and steps write, [`reads_of`] what lvalues read,
//! [`given_of`] the definitions that are no lvalues. Each is a loop over the arena, in the order of numbers. docs/uses.md has
//! the chapter.
#![tactic(auto)]

mod given;
mod peel;
mod put;
mod reads;
mod tables;
mod writes;

pub use given::given_of;
pub use peel::Peeled;
pub use put::Reach;
pub use reads::reads_of;
pub use tables::tables_of;
pub use writes::writes_of;
