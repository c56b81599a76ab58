//! The types of expressions, and the rules that their nodes break by their own form (docs/typing.md).
//!
//! [`judge`] walks a numbered tree once, parts before the node: a rule of `cc_judging` says what holds of each node, and
//! [`cc_symbols::Findings`] takes down its type, the member that it selects and the least offence, by its number. What a name
//! names and what type a type name has is read from [`cc_symbols::Symbols`] by number. [`check_fit`], [`check_scalar`] and
//! [`check_integer`] are for the values of initialisers, `return`s and conditions. Nothing here takes memory.
#![tactic(auto)]

mod checks;
mod forms;
mod look_ups;
mod noting;
mod walk;

pub use checks::{check_fit, check_integer, check_scalar};
pub use forms::{is_null, is_place, is_zero};
pub use look_ups::{declaration_at, kind_at};
pub use noting::offend;
pub use walk::judge;
