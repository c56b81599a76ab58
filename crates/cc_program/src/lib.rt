//! The linked program: what is known of all files of a project once no rule is broken.
//!
//! A [`Program`] has the nodes of all files in one arena, what is known of each node by its number (its place, its type,
//! what its name names), and tables: functions, variables, components, files, entries. Functions and variables are
//! numbered in the order of their first declarators. All look-ups are total: past the end of a table they give nothing.
#![tactic(auto)]

mod file;
mod function;
mod program;
mod variable;

pub use file::FileEntry;
pub use function::{FuncId, Function, FunctionKind};
pub use program::{Program, Referent};
pub use variable::{VarId, Variable};
