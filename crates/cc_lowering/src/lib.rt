//! From a program and its graph to the acts of its points.
//!
//! [`acts_of`] goes over the points in a loop, without recursion: what stands at a point is told by the node before, at or
//! after which the point is, and by the node that this one is a part of. A node without parts gives its value at the point
//! before it; what another node does with its parts' values stands at the points after them. Which point comes next is read
//! from the graph. docs/runs.md has the chapter.
#![tactic(auto)]

mod after;
mod before;
mod calls;
mod look;
mod lower;
mod passing;
mod statements;

pub use lower::acts_of;
