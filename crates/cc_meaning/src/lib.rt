//! The words of tests, runs and couplings, which all crates above the program share.
//!
//! A [`Test`] has the calls of a test of the project file, each tied to a function of the program. A run of a test tells
//! [`Event`]s to what watches it (the trait [`Watch`]) and has an [`End`]; where the next step is undefined, an [`Undef`]
//! says why. A [`Coupling`] is one of four kinds; a [`Listing`] has those of a program, its rows. [`Scores`] say what the
//! tests' runs exercise of them, and [`Verdicts`] whether that is enough.
#![tactic(auto)]

mod coupling;
mod end;
mod event;
mod score;
mod test;
mod watch;

pub use coupling::{Coupling, CouplingList, Listing};
pub use end::{End, Undef};
pub use event::{Cell, Event};
pub use score::{
    EndList, Justified, JustifiedList, MarkList, RowReason, RowReasons, RowSet, RowSetList, Scores,
    Verdict, Verdicts,
};
pub use test::{NumberList, Test, TestCall, TestCallList, TestList, TextList};
pub use watch::{Told, Watch};
