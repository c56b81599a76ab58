// Copies and comparisons of kinds of tokens.
ghost use Rattle.std.specs.Prelude.{◌≡◌, IfOk};
ghost use Rattle.cc_prep.specs.Kinds as spec;

use cc_base::{Bytes, List, Memory, Text};
use cc_lex::{Token, TokenKind};
use std::alloc::{AllocError, Global};

/// Kinds of tokens: a macro's list.
pub type KindList = List<TokenKind>;

fn copy_text(alloc: Global, text: &Text) -> Result<Text, AllocError>
    ensures { IfOk result (λ copy. copy ≡ text.now) }
{
    Ok(Text::new(String::from_str(alloc, text.as_str())?))
}

fn copy_bytes(alloc: Global, bytes: &Bytes) -> Result<Bytes, AllocError>
    ensures { IfOk result (λ copy. copy ≡ bytes.now) }
{
    Ok(Bytes::new(bytes.bytes().to_vec(alloc)?))
}

/// A copy of the kind.
pub fn copy_kind(alloc: Global, kind: &TokenKind) -> Result<TokenKind, AllocError>
    ensures { IfOk result (λ copy. copy ≡ kind.now) }
{
    match kind {
        TokenKind::Keyword(keyword) => Ok(TokenKind::Keyword(*keyword)),
        TokenKind::Identifier(name) => Ok(TokenKind::Identifier(copy_text(alloc, name)?)),
        TokenKind::Integer { value, kind } => Ok(TokenKind::Integer {
            value: *value,
            kind: *kind,
        }),
        TokenKind::Character { value } => Ok(TokenKind::Character { value: *value }),
        TokenKind::Str(bytes) => Ok(TokenKind::Str(copy_bytes(alloc, bytes)?)),
        TokenKind::Punct(punct) => Ok(TokenKind::Punct(*punct)),
    }
}

/// The kinds of the tokens.
pub fn kinds_of(alloc: Global, tokens: &[Token]) -> Result<KindList, Memory>
    ensures { IfOk result (λ kinds. kinds ≡ spec.kinds_of tokens.now) }
{
    let mut kinds = KindList::new(alloc);
    for token in tokens {
        kinds.push(copy_kind(alloc, &token.kind)?)?;
    }
    Ok(kinds)
}

fn is_same_kind(a: &TokenKind, b: &TokenKind) -> bool {
    match (a, b) {
        (TokenKind::Keyword(a), TokenKind::Keyword(b)) => *a == *b,
        (TokenKind::Identifier(a), TokenKind::Identifier(b)) => a.as_str() == b.as_str(),
        (
            TokenKind::Integer { value, kind },
            TokenKind::Integer {
                value: other,
                kind: other_kind,
            },
        ) => *value == *other && *kind == *other_kind,
        (TokenKind::Character { value }, TokenKind::Character { value: other }) => *value == *other,
        (TokenKind::Str(a), TokenKind::Str(b)) => a.bytes() == b.bytes(),
        (TokenKind::Punct(a), TokenKind::Punct(b)) => *a == *b,
        _ => false,
    }
}

/// Whether these are the same kinds and values in the same order.
pub fn are_same_kinds(mut a: &[TokenKind], mut b: &[TokenKind]) -> bool {
    while let [x, xs @ ..] = a {
        match b {
            [] => return false,
            [y, ys @ ..] => {
                if !is_same_kind(x, y) {
                    return false;
                }
                a = xs;
                b = ys;
            }
        }
    }
    b.is_empty()
}
