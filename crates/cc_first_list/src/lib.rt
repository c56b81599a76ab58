//! The answer to `list` for projects of the first form (docs/first-form.md).
//!
//! [`first_answer`] takes the bytes of a project file and of its C files. Where all are of the first form it gives the
//! table of their call couplings, or says how many control points they have where these are too many; else it gives
//! nothing, and the files are read as any others. No file is read here.
#![tactic(auto)]

mod answer;
pub mod laws;
mod points;

pub use answer::{Answer, first_answer};
pub use points::MOST_POINTS;
