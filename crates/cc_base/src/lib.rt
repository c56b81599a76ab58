//! The words that all crates share: texts, bytes, lists, places in files, the numbers of files and components, want of
//! memory, and which points can be reached over edges.
//!
//! A [`Text`] is a name or another text, [`Bytes`] are those of a file or of a string literal, a [`List`] is a list of
//! items of one type: contracts see each as a list. A [`Spot`] is a line and a column of one file, a [`Place`] is a spot
//! with its file. `FileId` and `CompId` number files and components from 0 in the order of the project file.
//! [`Memory`] is want of memory. [`reachable`] marks what a path over edges reaches.
#![tactic(auto)]

mod bytes;
mod list;
mod memory;
mod place;
mod reach;
mod text;

pub use bytes::Bytes;
pub use list::List;
pub use memory::Memory;
pub use place::{CompId, FileId, Place, Spot};
pub use reach::{Edge, reachable};
pub use text::Text;
