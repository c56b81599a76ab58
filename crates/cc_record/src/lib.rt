//! The recorder: what watches a run and keeps the couplings that it exercises.
//!
//! A [`Recorder`] keeps no list of events. It stands for each list of events whose last fitting events say what its tables
//! say (`cc_record_laws`), and along an orderly list its set is exactly what the list exercises. docs/recorder.md has the
//! chapter.
#![tactic(auto)]

mod asked;
mod gives;
mod recorder;

pub use cc_record_tables::CouplingSet;
pub use recorder::Recorder;
