//! Files, as they are read from tokens: initialisers, declarations, statements.
//!
//! Each function gives exactly what the reader of the same name in `cc_grammar`'s definitions of reading gives, or a part
//! of one that `specs/Parts` names. A loop goes on for one round more than there are tokens: each round takes one, so the
//! refusal behind a loop never comes.
#![tactic(auto)]

mod begin;
mod block;
mod branches;
mod declaration;
mod file;
mod initialiser;
mod loops;
mod statement;

pub use file::reading;
