// What the spelling of a token means, and its first fault.
ghost use Rattle.std.specs.Prelude.{◌≡◌, ◌≤◌, ◌<◌, ◌+◌, ◌^◌, true, pos, length, map, unwrap_or, option_map, IfSome, IfOk};
ghost use Rattle.std.specs.List.{list_all, list_any};
ghost use Rattle.cc_lex.specs.Ascii.{is_ascii};
ghost use Rattle.cc_lex.specs.Bytes as bytes;
ghost use Rattle.cc_lex.specs.Meanings as spec;
ghost use Rattle.cc_lex.specs.Reading.{first_fault, pair_of, IsSound};
ghost use Rattle.cc_lex.specs.Numbers.{value_of, type_of};
ghost use Rattle.cc_lex.specs.Spellings as spellings;

use crate::byte::{first, is_letter, is_quote};
use crate::character::{as_char, character_fault, character_value, inner, string_fault, values_of};
use crate::keyword::{KEYWORDS, Keyword};
use crate::length::begins_number;
use crate::number::{constant, number_fault};
use crate::punct::{DIGRAPHS, PUNCTS, Punct};
use crate::rule::NOT_TAKEN;
use crate::step::Fault;
use crate::token::TokenKind;
use cc_arith::IntKind;
use cc_base::{Bytes, Text};
use std::alloc::{AllocError, Global};

/// Whether the two have the same bytes.
pub fn is_same(mut a: &[u8], mut b: &[u8]) -> bool
    ensures { result ≡ spellings.same a.entry.now b.entry.now }
{
    while let [x, a_rest @ ..] = a {
        match b {
            [] => return false,
            [y, b_rest @ ..] => {
                if *x != *y {
                    return false;
                }
                a = a_rest;
                b = b_rest;
            }
        }
    }
    b.is_empty()
}

// The first keyword of the table that these bytes spell.
fn keyword_in(mut table: &[(&[u8], Keyword)], w: &[u8]) -> Option<Keyword>
    ensures { result ≡ spec.lookup (map (λ k. (k.0.now, k.1)) table.entry.now) w.now }
{
    while let [entry, rest @ ..] = table {
        if is_same(entry.0, w) {
            return Some(entry.1);
        }
        table = rest;
    }
    None
}

// The first punctuator of the table that these bytes spell.
fn punct_in(mut table: &[(&[u8], Punct)], w: &[u8]) -> Option<Punct>
    ensures { result ≡ spec.lookup (map (λ p. (p.0.now, p.1)) table.entry.now) w.now }
{
    while let [entry, rest @ ..] = table {
        if is_same(entry.0, w) {
            return Some(entry.1);
        }
        table = rest;
    }
    None
}

fn is_spelling_in(mut table: &[&[u8]], w: &[u8]) -> bool
    ensures { result ≡ list_any (λ d. spellings.same d w.now) (map (λ d. d.now) table.entry.now) }
{
    while let [spelling, rest @ ..] = table {
        if is_same(spelling, w) {
            return true;
        }
        table = rest;
    }
    false
}

#[tactic(auto, unfolding(crate::specs::Spellings::keywords))]
fn keyword(w: &[u8]) -> Option<Keyword>
    ensures { result ≡ spec.lookup spellings.keywords w.now }
{
    keyword_in(&KEYWORDS, w)
}

/// Whether these bytes are the spelling of one of the 44 keywords (C17 6.4.1). Takes no memory.
pub fn is_keyword(w: &[u8]) -> bool
    ensures { result ≡ spec.is_keyword w.now }
{
    keyword(w).is_some()
}

#[tactic(auto, unfolding(crate::specs::Spellings::puncts))]
fn punct(w: &[u8]) -> Punct
    ensures { result ≡ unwrap_or (spec.lookup spellings.puncts w.now) Punct.Comma }
{
    punct_in(&PUNCTS, w).unwrap_or(Punct::Comma)
}

#[tactic(auto, unfolding(crate::specs::Spellings::digraphs))]
fn is_digraph(w: &[u8]) -> bool
    ensures { result ≡ spellings.is_digraph w.now }
{
    is_spelling_in(&DIGRAPHS, w)
}

// Whether these bytes can stand before a quote as the prefix of a wide or UTF-8 literal (C17 6.4.4.4, 6.4.5).
fn is_prefix(w: &[u8]) -> bool
    ensures { result ≡ spec.is_prefix w.now }
{
    match w {
        [b'L'] | [b'u'] | [b'U'] => true,
        [b'u', b'8'] => true,
        _ => false,
    }
}

/// The first fault of a token, for the byte that follows it.
#[tactic(auto, unfolding(crate::specs::Meanings::faults))]
pub fn token_fault(w: &[u8], after: u8) -> Option<Fault>
    requires { length w.now < 2 ^ 62 }
    ensures value { option_map pair_of result ≡ first_fault (spec.faults w.now after) }
    ensures within { IfSome result (λ f. f.at ≤ length w.now + 1) }
{
    if is_prefix(w) && is_quote(after) {
        Some(Fault {
            at: 0,
            rule: NOT_TAKEN,
        })
    } else if begins_number(w) {
        number_fault(w)
    } else if first(w) == b'\'' {
        character_fault(w)
    } else if first(w) == b'"' {
        string_fault(w)
    } else if is_digraph(w) {
        Some(Fault {
            at: 0,
            rule: NOT_TAKEN,
        })
    } else {
        None
    }
}

/// The text of an ASCII name.
fn text_of(alloc: Global, name: &[u8]) -> Result<Text, AllocError>
    requires { list_all is_ascii name.now ≡ true }
    ensures { IfOk result (λ t. t ≡ name.now) }
{
    let mut text = String::new(alloc);
    for b in name {
        text.push(*b as char)?;
    }
    Ok(Text::new(text))
}

#[tactic(auto, using(crate::proofs::MeaningLemmas::ascii_name), unfolding(crate::specs::Meanings::word))]
fn word(alloc: Global, w: &[u8]) -> Result<TokenKind, AllocError>
    requires token { spellings.is_token w.now ≡ true }
    requires letter { bytes.is_letter (bytes.first w.now) ≡ true }
    ensures { IfOk result (λ k. k ≡ spec.word w.now) }
{
    match keyword(w) {
        Some(k) => Ok(TokenKind::Keyword(k)),
        None => Ok(TokenKind::Identifier(text_of(alloc, w)?)),
    }
}

fn integer(w: &[u8]) -> TokenKind
    requires sound { IsSound w.now }
    requires number { spellings.begins_number w.now ≡ true }
    ensures { result ≡ TokenKind.Integer (pos (value_of w.now)) (unwrap_or (type_of w.now) IntKind.Int) }
{
    let (value, kind) = constant(w);
    TokenKind::Integer {
        value: i128::from(value),
        kind,
    }
}

/// The kind of a token without faults.
#[tactic(auto, unfolding(crate::specs::Meanings::meaning))]
pub fn meaning(alloc: Global, w: &[u8]) -> Result<TokenKind, AllocError>
    requires small { length w.now < 2 ^ 63 }
    requires sound { IsSound w.now }
    ensures { IfOk result (λ k. k ≡ spec.meaning w.now) }
{
    let b = first(w);
    if is_letter(b) {
        word(alloc, w)
    } else if begins_number(w) {
        Ok(integer(w))
    } else if b == b'\'' {
        let value = character_value(inner(w)).unwrap_or(0);
        Ok(TokenKind::Character {
            value: as_char(value),
        })
    } else if b == b'"' {
        Ok(TokenKind::Str(Bytes::new(values_of(alloc, inner(w))?)))
    } else {
        Ok(TokenKind::Punct(punct(w)))
    }
}
