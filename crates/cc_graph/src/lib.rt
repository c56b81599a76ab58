//! The control points of a program, and which point follows which within a function.
//!
//! A control point is a moment of a run: the root, the entry and the exit of a function with a body, the moments before and
//! after each node that is evaluated, and the moment at each call between its arguments and its result. [`lower`] numbers
//! them ([`Point`]; [`Position`] says which moment a number is) and gives for each one the points that may come next inside
//! the function. All passes are loops over the arena in the order of numbers. docs/points.md has the chapter.
#![tactic(auto)]

mod graph;
mod naming;
mod node;
mod order;
mod parts;
mod position;
mod scope;
mod standing;
mod steps;

pub use graph::{Graph, GraphFault, lower};
pub use position::{MAX_POINTS, Point, Position, Row};
pub use scope::Scope;
pub use standing::Standing;
