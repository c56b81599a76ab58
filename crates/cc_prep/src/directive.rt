// What directive lines ask of their rest, and what they do.
ghost use Rattle.std.specs.Prelude.{◌≡◌, IfErr, IfOk};
ghost use Rattle.cc_prep.specs.Kinds.{IsOneString};
ghost use Rattle.cc_prep.specs.Stops.{IsBroken};

use crate::fault::Stop;
use crate::file_name::is_file_name;
use crate::kind::{are_same_kinds, kinds_of};
use crate::macros::Macros;
use crate::rule::{NO_FILE_NAME, OTHER_LIST, PARAMETERS, WRONG_REST};
use cc_base::{Spot, Text};
use cc_lex::{Punct, Token, TokenKind};
use std::alloc::Global;

/// The rule is broken by the line whose `#` stands here.
pub fn broken(rule: u8, hash: Spot) -> Stop
    ensures { IsBroken hash result }
{
    Stop::Directive { spot: hash, rule }
}

/// The one identifier of the rest.
pub fn only_name(tokens: &[Token], hash: Spot) -> Result<&str, Stop>
    ensures { IfErr result (IsBroken hash) }
{
    match tokens {
        [
            Token {
                kind: TokenKind::Identifier(name),
                ..
            },
        ] => Ok(name.as_str()),
        _ => Err(broken(WRONG_REST, hash)),
    }
}

/// That the rest has no token.
pub fn nothing(tokens: &[Token], hash: Spot) -> Result<(), Stop>
    ensures { IfErr result (IsBroken hash) }
{
    if tokens.is_empty() {
        Ok(())
    } else {
        Err(broken(WRONG_REST, hash))
    }
}

// Whether the list begins with a `(` that stands directly behind the name.
fn has_parameters(name: &Text, spot: Spot, list: &[Token]) -> bool {
    match list {
        [first, ..] => {
            let is_paren = match first.kind {
                TokenKind::Punct(Punct::LeftParen) => true,
                _ => false,
            };
            let end = spot.column as u64 + name.as_str().len() as u64;
            is_paren && first.spot.column as u64 == end
        }
        [] => false,
    }
}

/// `define`: gives the name at the front its list.
pub fn define(alloc: Global, macros: &mut Macros, tokens: &[Token], hash: Spot) -> Result<(), Stop>
    ensures { IfErr result (IsBroken hash) }
{
    let [
        Token {
            kind: TokenKind::Identifier(name),
            spot,
        },
        list @ ..,
    ] = tokens
    else {
        return Err(broken(WRONG_REST, hash));
    };
    if has_parameters(name, *spot, list) {
        return Err(broken(PARAMETERS, hash));
    }
    let kinds = kinds_of(alloc, list)?;
    if let Some((_, before)) = macros.find(name.as_str())
        && !are_same_kinds(before, kinds.as_slice())
    {
        return Err(broken(OTHER_LIST, hash));
    }
    macros.bind(alloc, name.as_str(), Some(kinds))?;
    Ok(())
}

/// `undef`: takes the macro of the name away.
pub fn undef(alloc: Global, macros: &mut Macros, tokens: &[Token], hash: Spot) -> Result<(), Stop>
    ensures { IfErr result (IsBroken hash) }
{
    let name = only_name(tokens, hash)?;
    macros.bind(alloc, name, None)?;
    Ok(())
}

// The text of bytes that are a file name.
fn name_of(alloc: Global, bytes: &[u8], hash: Spot) -> Result<Text, Stop>
    ensures name { IfOk result (λ name. name ≡ bytes.now) }
    ensures broken { IfErr result (IsBroken hash) }
{
    if !is_file_name(bytes) {
        return Err(broken(NO_FILE_NAME, hash));
    }
    match str::from_utf8(bytes) {
        Ok(name) => Ok(Text::new(String::from_str(alloc, name)?)),
        Err(_) => Err(broken(NO_FILE_NAME, hash)),
    }
}

/// `include`: the file name of the rest.
pub fn included(alloc: Global, tokens: &[Token], hash: Spot) -> Result<Text, Stop>
    ensures name { IfOk result (IsOneString tokens.now) }
    ensures broken { IfErr result (IsBroken hash) }
{
    match tokens {
        [
            Token {
                kind: TokenKind::Str(bytes),
                ..
            },
        ] => name_of(alloc, bytes.bytes(), hash),
        _ => Err(broken(NO_FILE_NAME, hash)),
    }
}
