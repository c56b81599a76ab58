//! A program as the points-to rules see it, the rules, and what each occurrence asks of the facts.
//!
//! A [`View`] has for each occurrence what the rules see of it. The rules stand in `specs/Facts.antt`, a clause for each.
//! [`constraints`] lists what all occurrences ask: pairs, edges, and what the targets of a holder do. docs/facts.md has the
//! chapter.
#![tactic(auto)]

mod constraint;
mod layout;
mod make;
mod parts;
mod view;

pub use constraint::{Constraint, Watch};
pub use layout::{Layout, is_small, lay_out};
pub use make::constraints;
pub use parts::{
    element_of, formal_of, function_of, is_function, is_part, leaf_of, member_of, part_list,
    slot_of,
};
pub use view::{Callee, Class, Seen, View, What};
