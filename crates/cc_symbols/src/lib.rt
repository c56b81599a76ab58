//! What is known of the declarations of a project's files, by number.
//!
//! A declaration is a number, counted from 0 over all files; a node of the numbered trees is one too. [`Symbols`] has the
//! types, the structs, the declarations and, for each node, the declaration that it names and the type that it declares;
//! [`Findings`] has what is found of expressions: the type of each node, the member that it selects, and the least offence.
//! [`CheckedUnit`] is what is kept of a checked file for linking. Tables by number are [`Slots`]: a look-up past the end
//! gives nothing, a put past the end changes nothing.
#![tactic(auto)]

mod declared;
mod findings;
mod known;
mod offence;
pub mod rule;
mod slots;
mod symbols;
mod unit;

pub use declared::{Declared, Form, Life, Linkage};
pub use findings::Findings;
pub use known::Known;
pub use offence::{Offence, lesser};
pub use slots::Slots;
pub use symbols::{CHAR, Symbols};
pub use unit::{CheckedUnit, Completed, Outer, Role};
