//! What the runs of the tests exercise of a listing (docs/scores.md).
//!
//! [`score`] runs each test over the acts of the program with a recorder as watcher, and gives for each test the rows that its
//! run exercises and the end of the run, and for each row the first test that has it. What scores are is said in
//! `specs/Scored.antt`, the run of a test in `specs/Runs.antt` of `cc_orderly_laws`. [`first_marks`] carries the law that says what a mark is
//! (`specs/Firsts.antt`).
#![tactic(auto)]

ghost use Rattle.cc_scoring.specs.Firsts.{MarksNameFirst};

mod ends;
mod fault;
mod fit;
mod rows;
mod scoring;
mod watching;

pub use fault::ScoreFault;
pub use scoring::score;

/// The mark of a row names the least test whose run exercises the row, and a row has no mark exactly where no test's run does.
pub fn first_marks()
    ensures { MarksNameFirst }
{}
