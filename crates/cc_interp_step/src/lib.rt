//! The machine: one act after another, each exactly what `cc_acts` says of it.
//!
//! A [`Machine`] is at a point of a program; [`run_step`] does what stands there. A step tells nothing: it puts its events into
//! the machine's outbox.
#![tactic(auto)]

mod acts;
mod assignments;
mod calls;
mod machine;
mod objects;
mod places;
mod step;
mod values;

pub use machine::{Machine, Outcome};
pub use objects::{fill_all, has_room};
pub use step::step as run_step;
