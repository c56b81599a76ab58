//! The tokens of a C text, or the fault that comes first.
//!
//! [`lex`] cuts the bytes of a file into tokens by the rules of C17 6.4, restricted by the rules L1 to L9 that
//! `docs/tokens.md` lists. [`spot_of`] tells the line and the column of an offset, [`banned`] the first token that the
//! profile doesn't have. The definitions (`Cut`, `LexFaulty`) speak of the pieces of a whole text, the code reads on from
//! byte to byte; what holds of the definitions themselves stands in [`laws`].
#![tactic(auto)]

mod byte;
mod character;
mod keyword;
pub mod laws;
mod length;
mod meaning;
mod number;
mod profile;
mod punct;
mod reader;
mod rule;
mod run;
mod spot;
mod step;
mod token;

pub use keyword::Keyword;
pub use meaning::is_keyword;
pub use profile::banned;
pub use punct::Punct;
pub use reader::lex;
pub use spot::spot_of;
pub use token::{LexFault, Token, TokenKind, TokenList};
