//! The top call: the words of a command line and the files of a shelf, answered by text on a sink and a status.
//!
//! [`run`] is all that a program needs. `words` says what they ask for, `steps` joins the reading of a project's files and
//! what is done over them in their order: they are listed (`list`), checked (`check`), or their tests are run and that is
//! reported (`reports`). `generated` does the same for a project that it makes itself. `refusal` has the ways to give up, and
//! `call` hands the text over. docs/front.md has the chapter.
#![tactic(auto)]

mod call;
mod check;
mod devices;
mod faults;
mod generated;
mod list;
mod output;
mod reading;
mod refusal;
mod reports;
mod steps;
mod words;
mod work;

pub use call::run;
