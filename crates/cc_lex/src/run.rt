// Counts of bytes at the front of a text.
ghost use Rattle.std.specs.Prelude.{◌≡◌, ◌≤◌, ◌&&◌, ◌==◌, false, length, map};
ghost use Rattle.cc_lex.specs.Pieces as pieces;
ghost use Rattle.cc_lex.specs.Reading as spec;
ghost use Rattle.cc_lex.specs.Reading.{test_of};
ghost use Rattle.cc_lex.specs.Spellings.{spellings_of};

use crate::byte::{first, is_digit, is_letter, is_white};
use crate::punct::Punct;

/// What a run is of.
#[derive(Clone, Copy)]
pub enum Class {
    White,
    Line,
    Name,
    Number,
}

fn may_follow(class: Class, before: u8, b: u8) -> bool
    ensures { result ≡ test_of class before b }
{
    match class {
        Class::White => is_white(b),
        Class::Line => !(b == b'\n'),
        Class::Name => is_letter(b) || is_digit(b),
        Class::Number => {
            let is_sign = b == b'+' || b == b'-';
            let is_exponent = before == b'e' || before == b'E' || before == b'p' || before == b'P';
            is_letter(b) || is_digit(b) || b == b'.' || (is_sign && is_exponent)
        }
    }
}

/// How many bytes at the front go on behind the byte `before`.
pub fn run(class: Class, mut before: u8, mut z: &[u8]) -> usize
    ensures value { result ≡ spec.run (test_of class) before z.entry.now }
    ensures within { result ≤ length z.entry.now }
{
    let mut count = 0;
    while let [b, rest @ ..] = z {
        if !may_follow(class, before, *b) {
            return count;
        }
        count += 1;
        before = *b;
        z = rest;
    }
    count
}

/// How many bytes there are up to and with the closing quote, or 0 where it does not come.
#[tactic(auto, using(crate::proofs::Counts::plus_more))]
pub fn closing(quote: u8, mut z: &[u8]) -> usize
    ensures value { result ≡ spec.closing quote false z.entry.now }
    ensures within { result ≤ length z.entry.now }
{
    let mut escaped = false;
    let mut count = 0;
    while let [b, rest @ ..] = z {
        count += 1;
        if !escaped && *b == quote {
            return count;
        }
        if *b == b'\n' {
            return 0;
        }
        escaped = !escaped && *b == b'\\';
        z = rest;
    }
    0
}

fn ends_block(b: u8, next: u8) -> bool
    ensures { result ≡ (b == 42 && next == 47) }
{
    b == b'*' && next == b'/'
}

/// How many bytes there are up to and with the first `*/`, or 0 where it does not come.
#[tactic(auto, using(crate::proofs::Counts::plus_more))]
pub fn block_len(mut z: &[u8]) -> usize
    ensures value { result ≡ spec.block_len z.entry.now }
    ensures within { result ≤ length z.entry.now }
{
    let mut count = 0;
    while let [b, rest @ ..] = z {
        count += 1;
        if ends_block(*b, first(rest)) {
            return count + 1;
        }
        z = rest;
    }
    0
}

/// Whether `z` begins with the bytes of `word`.
pub fn begins(mut word: &[u8], mut z: &[u8]) -> bool
    ensures { result ≡ pieces.begins word.entry.now z.entry.now }
{
    while let [a, word_rest @ ..] = word {
        match z {
            [] => return false,
            [b, rest @ ..] => {
                if *a != *b {
                    return false;
                }
                word = word_rest;
                z = rest;
            }
        }
    }
    true
}

/// The length of the first punctuator of the table with which `z` begins, or 0.
pub fn first_punct(mut table: &[(&[u8], Punct)], z: &[u8]) -> usize
    ensures { result ≡ spec.first_of (spellings_of (map (λ p. (p.0.now, p.1)) table.entry.now)) z.now }
{
    while let [entry, rest @ ..] = table {
        if begins(entry.0, z) {
            return entry.0.len();
        }
        table = rest;
    }
    0
}

/// The length of the first spelling of the table with which `z` begins, or 0.
pub fn first_spelling(mut table: &[&[u8]], z: &[u8]) -> usize
    ensures { result ≡ spec.first_of (map (λ d. d.now) table.entry.now) z.now }
{
    while let [spelling, rest @ ..] = table {
        if begins(spelling, z) {
            return spelling.len();
        }
        table = rest;
    }
    0
}
