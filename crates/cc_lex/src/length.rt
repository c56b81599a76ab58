// How long the piece at the front of a text is.
ghost use Rattle.std.specs.Prelude.{◌≡◌, ◌≤◌, ◌<◌, ◌^◌, max, length};
ghost use Rattle.cc_lex.specs.Pieces as pieces;
ghost use Rattle.cc_lex.specs.Spellings as spellings;
ghost use Rattle.cc_lex.specs.Reading as spec;

use crate::byte::{back, first, is_blank, is_digit, is_letter, is_quote, second};
use crate::punct::{DIGRAPHS, PUNCTS};
use crate::run::{Class, begins, block_len, closing, first_punct, first_spelling, run};

fn name_len(z: &[u8]) -> usize
    requires { length z.now < 2 ^ 63 }
    ensures { result ≡ spec.name_len z.now }
{
    match z {
        [b, rest @ ..] if is_letter(*b) => 1 + run(Class::Name, *b, rest),
        _ => 0,
    }
}

/// Whether a number begins here.
pub fn begins_number(z: &[u8]) -> bool
    ensures { result ≡ spellings.begins_number z.now }
{
    is_digit(first(z)) || (first(z) == b'.' && is_digit(second(z)))
}

fn number_len(z: &[u8]) -> usize
    requires { length z.now < 2 ^ 63 }
    ensures { result ≡ spec.number_len z.now }
{
    match z {
        [b, rest @ ..] if begins_number(z) => 1 + run(Class::Number, *b, rest),
        _ => 0,
    }
}

fn quoted_len(z: &[u8]) -> usize
    requires { length z.now < 2 ^ 63 }
    ensures { result ≡ spec.quoted_len z.now }
{
    match z {
        [b, rest @ ..] if is_quote(*b) => {
            let count = closing(*b, rest);
            if count == 0 { 0 } else { count + 1 }
        }
        _ => 0,
    }
}

#[tactic(auto, unfolding(crate::specs::Spellings::puncts))]
fn punct_len(z: &[u8]) -> usize
    ensures { result ≡ spec.punct_len z.now }
{
    first_punct(&PUNCTS, z)
}

#[tactic(auto, unfolding(crate::specs::Spellings::digraphs))]
fn digraph_len(z: &[u8]) -> usize
    ensures { result ≡ spec.digraph_len z.now }
{
    first_spelling(&DIGRAPHS, z)
}

fn longer(a: usize, b: usize) -> usize
    ensures { result ≡ max a b }
{
    if a < b { b } else { a }
}

/// How many bytes the longest token at the front has, or 0.
#[tactic(auto, unfolding(crate::specs::Reading::token_len))]
pub fn token_len(z: &[u8]) -> usize
    requires { length z.now < 2 ^ 63 }
    ensures { result ≡ spec.token_len z.now }
{
    let name_or_number = longer(name_len(z), number_len(z));
    let word_or_quoted = longer(name_or_number, quoted_len(z));
    longer(longer(word_or_quoted, punct_len(z)), digraph_len(z))
}

/// Whether a comment begins here.
pub fn begins_comment(z: &[u8]) -> bool
    ensures { result ≡ pieces.begins_comment z.now }
{
    first(z) == b'/' && (second(z) == b'*' || second(z) == b'/')
}

/// How many bytes the comment at the front has, or 0.
pub fn comment_len(z: &[u8]) -> usize
    requires { length z.now < 2 ^ 63 }
    ensures { result ≡ spec.comment_len z.now }
{
    match z {
        [a, b, rest @ ..] => {
            if *a == b'/' && *b == b'*' {
                let count = block_len(rest);
                if count == 0 { 0 } else { 2 + count }
            } else if *a == b'/' && *b == b'/' {
                2 + run(Class::Line, 0, rest)
            } else {
                0
            }
        }
        _ => 0,
    }
}

fn skip_blanks(mut z: &[u8]) -> &[u8]
    ensures { result.now ≡ pieces.skip_blanks z.entry.now }
{
    while let [b, rest @ ..] = z {
        if !is_blank(*b) {
            return z;
        }
        z = rest;
    }
    z
}

fn begins_word(word: &[u8], z: &[u8]) -> bool
    ensures { result ≡ pieces.begins_word word.now z.now }
{
    if !begins(word, z) {
        return false;
    }
    let next = first(back(z, word.len()));
    !(is_letter(next) || is_digit(next))
}

fn is_directive(z: &[u8]) -> bool
    ensures { result ≡ pieces.is_directive z.now }
{
    is_digit(first(z)) || begins_word(b"line", z) || begins_word(b"pragma", z)
}

/// Whether a `#` stands here, and goes on so that it begins a skipped line.
pub fn begins_skipped(z: &[u8]) -> bool
    ensures { result ≡ pieces.begins_skipped z.now }
{
    match z {
        [] => false,
        [b, rest @ ..] => *b == b'#' && is_directive(skip_blanks(rest)),
    }
}
