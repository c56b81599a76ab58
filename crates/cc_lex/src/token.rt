// Tokens, and why a text has none.
ghost use Rattle.std.specs.Prelude.{◌≡◌};

use crate::keyword::Keyword;
use crate::punct::Punct;
use cc_arith::IntKind;
use cc_base::{Bytes, List, Spot, Text};
use std::alloc::AllocError;

/// What a token is.
#[derive(Debug, Drop)]
pub enum TokenKind {
    /// A keyword (C17 6.4.1).
    Keyword(Keyword),
    /// An identifier (C17 6.4.2): its name.
    Identifier(Text),
    /// An integer constant: its value, and the first type that fits.
    Integer { value: i128, kind: IntKind },
    /// A character constant: the value of its one character as a `char`.
    Character { value: i128 },
    /// A string literal: its bytes, without the zero that ends it. A byte over 127 stands for a negative `char`.
    Str(Bytes),
    /// A punctuator (C17 6.4.6).
    Punct(Punct),
}

/// A token of a text (C17 6.4).
#[derive(Debug, Drop)]
pub struct Token {
    /// What it is.
    pub kind: TokenKind,
    /// Where its first byte stands.
    pub spot: Spot,
}

/// Tokens, in the order of the text.
pub type TokenList = List<Token>;

/// Why a text has no tokens.
#[derive(Clone, Copy, Debug, PartialEq, Eq)]
pub enum LexFault {
    /// The rule L`rule`, from L1 to L9, fails at this offset, which counts bytes from 0.
    At { offset: u64, rule: u8 },
    /// Memory was wanting. No clause says when.
    Memory,
}

impl From<AllocError> for LexFault {
    fn from(_: AllocError) -> LexFault
        ensures { result ≡ LexFault.Memory }
    {
        LexFault::Memory
    }
}
