//! Values of a run, stacks and rows of them, and the store of the live objects.
//!
//! A [`Value`] is what a cell holds. A [`Stack`] is a list seen with the item pushed last first, a [`Row`] one that is read
//! and written by number. [`Store`] has the live objects of a run, each with its own cells: contracts see a list of
//! objects (`specs/Objects.antt`), the code keeps one vector of cells for all (`specs/Layout.antt`).
#![tactic(auto)]

mod header;
mod row;
mod stack;
mod store;
mod value;

pub use row::Row;
pub use stack::Stack;
pub use store::Store;
pub use value::{Pointer, Value};
