//! What the acts of a program say of its names and objects: the numbers of names and of lasting objects, sizes in cells,
//! conversions and operators by type, the values of constant expressions, and what the cells of new objects get.
//!
//! All of it is found in loops over the arena, without recursion, in time in proportion to the nodes and their depth. Every
//! look-up is total: what is no node, type or function has no value, no cells and no names.
#![tactic(auto)]

mod around;
mod constants;
mod counts;
mod fillers;
mod numbers;
mod operators;
mod sides;
mod types;

pub use around::{Around, gives_at, gives_one, inside, outside};
pub use constants::{Constants, constants_of, lasting_place, size_at};
pub use numbers::{Numbers, declared_type, fills_array, numbers_of};
pub use operators::{compound_of, operator_at, step_operator};
pub use sides::{Fill, Formals, Select, Sides, sides_of};
pub use types::{
    cells_of, conversion_at, conversion_to, kind_at, member_offset, parameter_of, pointee_at,
    result_of,
};
