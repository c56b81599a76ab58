//! Projects of the first form: two components of one file each, whose functions have no parameters and no results and
//! whose bodies are direct calls (docs/first-form.md).
//!
//! The way goes from the document of a project file and what it says ([`read_document`], [`read_project`]) over the
//! parts of each C file ([`read_unit`]) to the table of the call couplings of both ([`table`]). What is not of the form
//! is no error but `None`: whoever reads the files knows their names and says what is refused. No file is read here, and
//! no text is written.
#![tactic(auto)]

mod listing;
mod paths;
mod program;
mod project;
mod token;
mod unit;

pub use listing::table;
pub use project::{Component, Project, read_document, read_project};
pub use unit::{LIMIT, Name, Part, read_unit};
