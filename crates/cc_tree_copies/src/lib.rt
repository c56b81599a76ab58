//! Copies of the words in a syntax tree, for a pass that makes a tree from tokens or from another tree.
//!
//! [`copied_text`], [`copied_tag`] and [`copied_strings`] each answer `Memory` where memory is wanting. No node of a tree
//! needs a maker: its variant or struct is one, over parts that stand in a `Boxed` or in `Items`.
#![tactic(auto)]

mod copy;

pub use copy::{copied_strings, copied_tag, copied_text};
