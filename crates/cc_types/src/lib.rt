//! The types of C as numbers: each type stands once in a [`TypeTable`], so equal types have equal numbers.
//!
//! A [`Shape`] is a type by its outermost form, what it is made of by number. The type of an expression, [`ExprType`], is a
//! shape by value or a pointer to one, so that rules on expressions put nothing into the table; what they ask is a method
//! of [`TypeTable`] (`value`, `pointee`, `kind`, `fits` ..). [`Structs`] has the structs with their members, and what is
//! measured of types: cells, bytes, const parts. [`Depths`] gives how deep types are.
//!
//! Contracts see a table as the list of its shapes, and structs as the list of their entries; what these mean in plain
//! types (`specs/CTypes.antt`) is said beside, and by the laws of [`laws`]. `docs/types.md` has the chapter.
#![tactic(auto)]

mod declared;
mod depth;
mod depths;
mod expr_type;
mod fitting;
pub mod laws;
mod links;
mod measure;
mod member_lists;
mod questions;
mod shape;
mod structs;
mod table;
mod text_numbers;

pub use depth::{Depth, DepthItem};
pub use depths::Depths;
pub use expr_type::ExprType;
pub use links::{Link, Links};
pub use measure::Measure;
pub use member_lists::MemberLists;
pub use shape::{Shape, TypeId};
pub use structs::{Member, MemberList, StructEntry, Structs};
pub use table::TypeTable;
pub use text_numbers::TextNumbers;
