//! A shelf and a sink in memory that fail where they are told to: for tests, and for generated projects.
//!
//! [`MemoryShelf`] has a list of the reads that fail, [`MemorySink`] a list of the puts that fail and a room. Both tell
//! what they hold, and their contracts say of each call just what it answers and what stands after it.
#![tactic(auto)]

mod listed;
mod shelf;
mod sink;

pub use shelf::MemoryShelf;
pub use sink::MemorySink;
