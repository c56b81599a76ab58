//! The nodes of the files' trees in one arena, each at its number.
//!
//! A [`Node`] says what stands at a number; its parts are numbers. A [`Placed`] has besides the number of the node that it
//! is a part of, and its spot. Lists of parts are [`Span`]s of one list beside the nodes. A look-up of a number that isn't
//! there gives nothing. docs/arena.md has the chapter.
#![tactic(auto)]

mod arena;
mod node;

pub use arena::{Arena, Placed};
pub use node::{Node, Span};
