//! The rules C15 to C52 over a file: [`check_unit`] walks its numbered tree once, declares its names, judges its expressions,
//! initialisers, declarations and statements, fills the arena with its nodes, and asks there for the rules that look at what
//! stands around an expression. Its answer is the first rule that is broken, or what is known of the file.
#![tactic(auto)]

mod blocks;
mod declarations;
mod files;
mod functions;
mod labels;
mod linkage;
mod outer;
mod statements;
mod storage;
mod unit;
mod values;

pub use statements::CaseValue;
pub use unit::{CheckFault, Checked, check_unit};
