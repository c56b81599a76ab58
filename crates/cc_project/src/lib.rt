//! The project file: what it says, or the first rule that it breaks.
//!
//! [`read_project`] reads the bytes of a project file as TOML and judges the document by the rules J1 to J18 that
//! `docs/project-file.md` lists. The rules stand as tests of values in `specs/Rules.antt`, their order as one list in
//! `specs/Order.antt`, and what a document says in `specs/Project.antt`. The code goes over the document twice: first it
//! asks rule after rule, in the order of that list (`shape`), and then it copies what is there (`content`).
#![tactic(auto)]

mod content;
mod fault;
mod limit;
mod name;
mod project;
mod reader;
mod rule;
mod seen;
mod shape;
mod value;

pub use fault::{Key, ProjectFault};
pub use project::{
    NumberList, Project, ProjectFile, ProjectFileList, RawCall, RawCallList, RawJustified,
    RawJustifiedList, RawTest, RawTestList, TextList,
};
pub use reader::read_project;
