// The parts of a C file of the first form.
ghost use Rattle.std.specs.Prelude.{◌≡◌, ◌≤◌, ◌<◌, ◌^◌, ◌↔◌, IsTrue, List, [], length, drop, map, option_map, IfOk, IfSome, IfNone};
ghost use Rattle.std.specs.List.{list_all};
ghost use Rattle.cc_first.specs.Tokens.{AreTokens};
ghost use Rattle.cc_first.specs.UnitReads as reads;
ghost use Rattle.cc_first.specs.Unit as unit;
ghost use Rattle.cc_first.specs.Limit.{limit};
ghost use Rattle.cc_first.specs.Unit.{IsUnit, Part as PartData};
ghost use Rattle.cc_first.specs.Views.{name_view, part_view, parts_view};

use crate::token::{Kind, Mark, Token, read_tokens};
use cc_base::Spot;
use indexmap::IndexSet;
use std::alloc::{AllocError, Global};

/// The most bytes that a file may have.
pub const LIMIT: u64 = 1_048_576;

/// A name where it stands: its first byte's line and column, both counted from 1.
#[derive(Clone, Copy)]
pub struct Name<'a> {
    pub text: &'a str,
    pub spot: Spot,
}

/// What stands at file scope of a C file of the first form.
#[derive(Drop)]
pub enum Part<'a> {
    /// `void ID(void);`
    Declaration(Name<'a>),
    /// `void ID(void) { .. }` with its calls `ID();`
    Definition(Name<'a>, Vec<Name<'a>>),
}

// Whether the token at this index is `void`.
fn is_void(tokens: &[Token<'_>], at: usize) -> bool
    ensures { result ≡ reads.void_at tokens.now at }
{
    match tokens.get(at) {
        Some(token) => matches!(token.kind, Kind::Void),
        None => false,
    }
}

// Whether the token at this index is this mark.
fn is_mark(tokens: &[Token<'_>], at: usize, mark: Mark) -> bool
    ensures { result ≡ reads.mark_at tokens.now at mark }
{
    match tokens.get(at) {
        Some(token) => match token.kind {
            Kind::Mark(found) => found == mark,
            _ => false,
        },
        None => false,
    }
}

// The name at this index.
fn name_at<'a>(tokens: &[Token<'a>], at: usize) -> Option<Name<'a>>
    ensures { option_map name_view result ≡ reads.name_at tokens.now at }
{
    let token = tokens.get(at)?;
    match token.kind {
        Kind::Name(text) => Some(Name {
            text,
            spot: token.spot,
        }),
        _ => None,
    }
}

// The tokens behind the first ones.
fn behind<'a, 'b>(tokens: &'b [Token<'a>], len: usize) -> &'b [Token<'a>]
    requires { len ≤ length tokens.now }
    ensures { result.now ≡ drop len tokens.now }
{
    &tokens[len..]
}

// How many tokens `void ID(void)` and `ID();` have.
const HEAD_LEN: usize = 5;

const CALL_LEN: usize = 4;

// The name of `void ID(void)` at the front.
fn first_head<'a>(tokens: &[Token<'a>]) -> Option<Name<'a>>
    ensures { option_map name_view result ≡ reads.head_at tokens.now }
{
    let name = name_at(tokens, 1)?;
    if is_void(tokens, 0)
        && is_mark(tokens, 2, Mark::OpenParen)
        && is_void(tokens, 3)
        && is_mark(tokens, 4, Mark::CloseParen)
    {
        Some(name)
    } else {
        None
    }
}

// The name of `ID();` at the front.
fn first_call<'a>(tokens: &[Token<'a>]) -> Option<Name<'a>>
    ensures { option_map name_view result ≡ reads.call_at tokens.now }
{
    let name = name_at(tokens, 0)?;
    if is_mark(tokens, 1, Mark::OpenParen)
        && is_mark(tokens, 2, Mark::CloseParen)
        && is_mark(tokens, 3, Mark::Semicolon)
    {
        Some(name)
    } else {
        None
    }
}

// The calls of a body whose `{` is read, up to and with its `}`.
fn first_calls<'a>(alloc: Global, tokens: &[Token<'a>]) -> Result<Option<Vec<Name<'a>>>, AllocError>
    requires { AreTokens tokens.now }
    ensures some { IfOk result (λ read. IfSome read (λ calls. reads.IsBody tokens.now (map name_view calls.items))) }
    ensures none { IfOk result (λ read. IfNone read (reads.NoBody tokens.now)) }
{
    let mut calls = Vec::new(alloc);
    let mut rest = tokens;
    while let Some(call) = first_call(rest) {
        calls.push(call)?;
        rest = behind(rest, CALL_LEN);
    }
    if is_mark(rest, 0, Mark::CloseBrace) {
        Ok(Some(calls))
    } else {
        Ok(None)
    }
}

// The part at the front.
fn first_part<'a>(alloc: Global, tokens: &[Token<'a>]) -> Result<Option<Part<'a>>, AllocError>
    requires { AreTokens tokens.now }
    ensures some { IfOk result (λ read. IfSome read (λ part. reads.IsPart tokens.now (part_view part))) }
    ensures none { IfOk result (λ read. IfNone read (reads.NoPart tokens.now)) }
{
    let Some(name) = first_head(tokens) else {
        return Ok(None);
    };
    let rest = behind(tokens, HEAD_LEN);
    if is_mark(rest, 0, Mark::Semicolon) {
        return Ok(Some(Part::Declaration(name)));
    }
    if !is_mark(rest, 0, Mark::OpenBrace) {
        return Ok(None);
    }
    match first_calls(alloc, behind(rest, 1))? {
        Some(calls) => Ok(Some(Part::Definition(name, calls))),
        None => Ok(None),
    }
}

// How many tokens the part has.
fn part_len(part: &Part<'_>) -> usize
    requires { length (unit.part_tokens (part_view part.now)) < 2 ^ 64 }
    ensures { result ≡ length (unit.part_tokens (part_view part.now)) }
{
    match part {
        Part::Declaration(_) => HEAD_LEN + 1,
        Part::Definition(_, calls) => HEAD_LEN + 2 + CALL_LEN * calls.len(),
    }
}

// The parts that the tokens spell, or none.
fn read_parts<'a>(alloc: Global, tokens: &[Token<'a>]) -> Result<Option<Vec<Part<'a>>>, AllocError>
    requires kinds { AreTokens tokens.now }
    requires small { length tokens.now < 2 ^ 63 }
    ensures some { IfOk result (λ read. IfSome read (λ parts. reads.AreParts tokens.now (parts_view parts.items))) }
    ensures none { IfOk result (λ read. IfNone read (reads.NoParts tokens.now)) }
{
    let mut parts = Vec::new(alloc);
    let mut rest = tokens;
    while !rest.is_empty() {
        let Some(part) = first_part(alloc, rest)? else {
            return Ok(None);
        };
        rest = behind(rest, part_len(&part));
        parts.push(part)?;
    }
    Ok(Some(parts))
}

// The name of a part.
fn head_text<'a>(part: &Part<'a>) -> &'a str
    ensures { result.now ≡ reads.head_text (part_view part.now) }
{
    match part {
        Part::Declaration(head) => head.text,
        Part::Definition(head, _) => head.text,
    }
}

// Whether this is the name of one of these heads.
fn is_known(heads: &IndexSet<&str>, name: &Name<'_>) -> bool
    ensures { result ≡ reads.is_among (map (λ key. key.now) heads.now.keys) name.now.text.now }
{
    heads.contains(name.text)
}

fn are_known(heads: &IndexSet<&str>, names: &[Name<'_>]) -> bool
    ensures { result ≡ list_all
        (λ name. reads.is_among (map (λ key. key.now) heads.now.keys) name.text.now) names.now }
{
    names.iter().all(|name| is_known(heads, name))
}

// Whether each call of the part is of one of these heads.
fn calls_known(heads: &IndexSet<&str>, part: &Part<'_>) -> bool
    ensures { result ≡ reads.calls_among (map (λ key. key.now) heads.now.keys) (part_view part.now) }
{
    match part {
        Part::Declaration(_) => true,
        Part::Definition(_, calls) => are_known(heads, calls),
    }
}

// Whether each called name stands earlier in the file as the name of a part, that of its own function included.
fn calls_stand(alloc: Global, parts: &[Part<'_>]) -> Result<bool, AllocError>
    ensures { IfOk result (λ holds. IsTrue holds ↔ unit.CallsStand [] (parts_view parts.now)) }
{
    let mut heads = IndexSet::new(alloc);
    for part in parts {
        heads.insert(head_text(part))?;
        if !calls_known(&heads, part) {
            return Ok(false);
        }
    }
    Ok(true)
}

/// The parts of a C file of the first form, or none where the bytes are no such file. Needs at most [`LIMIT`] bytes.
/// The error is want of memory.
pub fn read_unit(alloc: Global, bytes: &[u8]) -> Result<Option<Vec<Part<'_>>>, AllocError>
    requires { length bytes.now ≤ limit }
    ensures some { IfOk result (λ read.
        IfSome read (λ parts. IsUnit bytes.now (parts_view parts.items))) }
    ensures none { IfOk result (λ read.
        IfNone read ((parts : List PartData) → IsUnit bytes.now parts → ⊥)) }
{
    let Some(tokens) = read_tokens(alloc, bytes)? else {
        return Ok(None);
    };
    let Some(parts) = read_parts(alloc, &tokens)? else {
        return Ok(None);
    };
    if calls_stand(alloc, &parts)? {
        Ok(Some(parts))
    } else {
        Ok(None)
    }
}
