//! The parts of objects: of which parts an object of a type is made, and the parts of all objects of a program.
//!
//! A part of an object is the object itself, a member of a part, or the elements of a part, which are one part together.
//! The parts of an object stand in preorder, members in order, so what a part is made of comes next. [`Parts`] has the
//! parts of all objects of a program one after another: a part is a number. A slot is a part of scalar type, by the same
//! number. docs/facts.md has the chapter.
#![tactic(auto)]

mod build;
mod part;
mod parts;
mod program;

pub use build::put_parts;
pub use part::{DEPTH, Form, Part};
pub use parts::{Object, Parts};
pub use program::parts_of_program;
