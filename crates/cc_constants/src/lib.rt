//! Integer constant expressions (C17 6.6): which expressions are some, and their values (docs/typing.md).
//!
//! [`is_constant`] says so by the form of a numbered expression, [`constant`] gives the value, in the kinds that judging took
//! down (`cc_typing`), or none where it isn't defined. Nothing here takes memory.
#![tactic(auto)]

mod forms;
mod operators;
mod value;

pub use forms::is_constant;
pub use value::constant;
