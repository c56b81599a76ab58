// The tokens that are left.
ghost use Rattle.std.specs.Prelude.{◌≡◌, ◌≢◌, ◌<◌, ◌^◌, length, option_map, Err};
ghost use Rattle.cc_grammar.specs.Classes as grammar;
ghost use Rattle.cc_grammar.specs.Outcomes as spec;
ghost use Rattle.cc_parse_tokens.specs.Classes.{class_of_start, class_of_spec, tail_of, stmt_of, integer_of, character_of};
ghost use Rattle.cc_parse_tokens.specs.Gives.{Gives};
ghost use Rattle.cc_parse_tokens.specs.declared.fault.Fault.TheVariants.{Memory};
ghost use Rattle.cc_lex.specs.declared.token.TokenKind.TheVariants as kind;

use crate::class::{SpecStart, Start, StmtStart, Tail};
use crate::fault::Fault;
use crate::names::TypedefNames;
use crate::table::{
    spec_keyword, start_keyword, start_punct, stmt_keyword, stmt_punct, tail_punct,
};
use cc_arith::IntKind;
use cc_base::{Bytes, Spot, Text};
use cc_lex::{Keyword, Punct, Token, TokenKind};
use std::marker::Model;

/// The tokens that are left. A contract sees them as a list.
///
/// A reader that refuses a token for its depth alone marks it, so that the fault can tell so. No clause speaks of marks.
#[derive(Drop)]
pub struct Cursor<'a> {
    rest: &'a [Token],
    /// How many tokens were left where one was marked last.
    marked: Option<usize>,
}

impl<'a> Model for Cursor<'a> {
    ghost use Rattle.std.specs.Prelude.{List};
    ghost use Rattle.cc_lex.specs.declared.token.Token.{Token as TokenValue};

    ghost Value = { List TokenValue };

    ghost view = { λ c. c.rest.now };
}

impl<'a> Cursor<'a> {
    /// All these tokens.
    pub fn new(rest: &'a [Token]) -> Cursor<'a>
        ensures { result ≡ rest.now }
    {
        Cursor { rest, marked: None }
    }

    /// How many tokens are left.
    pub fn len(&self) -> usize
        ensures value { result ≡ length self.now }
        ensures small { result < 2 ^ 63 }
    {
        self.rest.len()
    }

    /// Marks the next token as one that is refused for its depth alone.
    pub fn mark(&mut self)
        ensures { self.new ≡ self.old }
    {
        self.marked = Some(self.rest.len());
    }

    /// Whether the next token is marked.
    pub fn is_marked(&self) -> bool {
        self.marked == Some(self.rest.len())
    }

    /// Where the next token stands, and for none the start of a file.
    pub fn spot(&self) -> Spot
        ensures { result ≡ grammar.spot self.now }
    {
        match self.rest {
            [] => Spot::start(),
            [token, ..] => token.spot,
        }
    }

    /// Goes past the next token.
    pub fn skip(&mut self)
        ensures { self.new ≡ grammar.skip self.old }
    {
        if let [_, rest @ ..] = self.rest {
            self.rest = rest;
        }
    }

    /// The tokens behind the next one, with no token marked. The cursor stays.
    pub fn behind(&self) -> Cursor<'a>
        ensures { result ≡ grammar.skip self.now }
    {
        match self.rest {
            [] => Cursor::new(self.rest),
            [_, rest @ ..] => Cursor::new(rest),
        }
    }

    /// Whether this punctuator comes next.
    pub fn next_is(&self, punct: Punct) -> bool
        ensures { result ≡ grammar.next_is punct self.now }
    {
        match self.rest {
            [] => false,
            [token, ..] => is_punct(punct, &token.kind),
        }
    }

    /// Whether this keyword comes next.
    pub fn next_is_keyword(&self, word: Keyword) -> bool
        ensures { result ≡ grammar.next_is_keyword word self.now }
    {
        match self.rest {
            [] => false,
            [token, ..] => is_keyword(word, &token.kind),
        }
    }

    /// Takes this punctuator.
    pub fn take(&mut self, punct: Punct) -> Result<(), Fault>
        ensures gives { Gives (λ _. tt) (spec.take punct self.old) result self.new }
        ensures no_memory { result ≢ Err Memory }
    {
        if self.next_is(punct) {
            self.skip();
            Ok(())
        } else {
            Err(Fault::Refused)
        }
    }

    /// Takes this keyword.
    pub fn take_keyword(&mut self, word: Keyword) -> Result<(), Fault>
        ensures gives { Gives (λ _. tt) (spec.take_keyword word self.old) result self.new }
        ensures no_memory { result ≢ Err Memory }
    {
        if self.next_is_keyword(word) {
            self.skip();
            Ok(())
        } else {
            Err(Fault::Refused)
        }
    }

    /// The identifier that comes next.
    pub fn ident(&self) -> Option<&'a Text>
        ensures { option_map (λ x. x.now) result ≡ grammar.next_ident self.now }
    {
        match self.rest {
            [] => None,
            [token, ..] => match &token.kind {
                TokenKind::Identifier(name) => Some(name),
                _ => None,
            },
        }
    }

    /// The string literal that comes next.
    pub fn literal(&self) -> Option<&'a Bytes>
        ensures { option_map (λ x. x.now) result ≡ grammar.next_literal self.now }
    {
        match self.rest {
            [] => None,
            [token, ..] => match &token.kind {
                TokenKind::Str(bytes) => Some(bytes),
                _ => None,
            },
        }
    }

    /// The integer constant that comes next: its value and kind.
    pub fn integer(&self) -> Option<(i128, IntKind)>
        ensures { result ≡ integer_of (grammar.start self.now) }
    {
        match self.rest {
            [] => None,
            [token, ..] => match &token.kind {
                TokenKind::Integer { value, kind } => Some((*value, *kind)),
                _ => None,
            },
        }
    }

    /// The character constant that comes next: its value.
    pub fn character(&self) -> Option<i128>
        ensures { result ≡ character_of (grammar.start self.now) }
    {
        match self.rest {
            [] => None,
            [token, ..] => match &token.kind {
                TokenKind::Character { value } => Some(*value),
                _ => None,
            },
        }
    }

    /// How an expression begins with the next token.
    pub fn start(&self) -> Start
        ensures { result ≡ class_of_start (grammar.start self.now) }
    {
        match self.rest {
            [] => Start::Nothing,
            [token, ..] => match &token.kind {
                TokenKind::Identifier(_) => Start::Name,
                TokenKind::Integer { .. } => Start::Integer,
                TokenKind::Character { .. } => Start::Character,
                TokenKind::Str(_) => Start::Str,
                TokenKind::Punct(punct) => start_punct(*punct),
                TokenKind::Keyword(word) => start_keyword(*word),
            },
        }
    }

    /// How an expression goes on with the next token.
    pub fn tail(&self) -> Tail
        ensures { tail_of result ≡ grammar.tail self.now }
    {
        match self.rest {
            [] => Tail::End,
            [token, ..] => match &token.kind {
                TokenKind::Punct(punct) => tail_punct(*punct),
                _ => Tail::End,
            },
        }
    }

    /// How a specifier begins with the next token.
    pub fn spec_start(&self, names: &TypedefNames) -> SpecStart
        ensures { result ≡ class_of_spec (grammar.spec_start names.now self.now) }
    {
        match self.rest {
            [] => SpecStart::Nothing,
            [token, ..] => match &token.kind {
                TokenKind::Keyword(word) => spec_keyword(*word),
                TokenKind::Identifier(name) => named(names, name.as_str()),
                _ => SpecStart::Nothing,
            },
        }
    }

    /// Whether the next token begins a specifier.
    pub fn starts_spec(&self, names: &TypedefNames) -> bool
        ensures { result ≡ grammar.starts_spec names.now self.now }
    {
        self.spec_start(names) != SpecStart::Nothing
    }

    /// How a statement or a label begins with the next token.
    pub fn stmt_start(&self) -> StmtStart
        ensures { stmt_of result ≡ grammar.stmt_start self.now }
    {
        match self.rest {
            [] => StmtStart::Other,
            [token, ..] => match &token.kind {
                TokenKind::Keyword(word) => stmt_keyword(*word),
                TokenKind::Punct(punct) => stmt_punct(*punct),
                _ => StmtStart::Other,
            },
        }
    }
}

fn is_punct(punct: Punct, kind: &TokenKind) -> bool
    ensures { result ≡ grammar.is_punct punct kind.now }
{
    match kind {
        TokenKind::Punct(other) => punct == *other,
        _ => false,
    }
}

fn is_keyword(word: Keyword, kind: &TokenKind) -> bool
    ensures { result ≡ grammar.is_keyword word kind.now }
{
    match kind {
        TokenKind::Keyword(other) => word == *other,
        _ => false,
    }
}

fn named(names: &TypedefNames, name: &str) -> SpecStart
    ensures { result ≡ class_of_spec (grammar.spec_kind names.now (kind.Identifier name.now)) }
{
    if names.has(name) {
        SpecStart::Named
    } else {
        SpecStart::Nothing
    }
}
