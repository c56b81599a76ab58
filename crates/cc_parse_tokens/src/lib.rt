//! What the parser reads with: the tokens that are left, what the next one can begin or go on with, the typedef names so
//! far, and why reading stops.
//!
//! Each call is exactly what the definition that its contract names gives. Of marks no clause speaks.
#![tactic(auto)]

mod class;
mod cursor;
mod fault;
pub mod levels;
mod names;
mod table;

pub use class::{SpecStart, Start, StmtStart, Tail};
pub use cursor::Cursor;
pub use fault::Fault;
pub use names::TypedefNames;
pub use table::{binary_level, binds, left_level};
