//! Macros and includes (C17 6.10, as far as the profile has them): the tokens of a file of the project once its directive
//! lines are carried out.
//!
//! [`expand`] stands in the place of `cc_lex::lex`. It cuts the text between directive lines with `lex`, replaces the names
//! of macros by their lists, and reads each included file from a shelf. `docs/macros.md` has the rules M1 to M7 with an
//! example each; the definition of the whole stands in `specs/Expansion.antt`.
//!
//! `line` knows a directive line, `passage` finds the next one and cuts the text before it, `macros` keeps the lists,
//! `replacement` puts them in the place of names, `directive` carries out one line, `file` reads one file on, and
//! `expansion` goes from file to file.
#![tactic(auto)]

mod comment;
mod directive;
mod expansion;
mod fault;
mod file;
mod file_name;
mod group;
mod kind;
mod line;
mod macros;
mod mark;
mod output;
mod passage;
mod replacement;
mod rule;

pub use expansion::expand;
pub use fault::PrepFault;
