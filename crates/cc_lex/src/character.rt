// Characters between quotes, and their escapes.
ghost use Rattle.std.specs.Prelude.{◌≡◌, ◌≤◌, ◌<◌, ◌+◌, ◌-◌, ◌^◌, ◌==◌, if◌then◌else◌, length, take, drop, option_map, IfSome, IfOk};
ghost use Rattle.cc_lex.specs.Characters as spec;
ghost use Rattle.cc_lex.specs.Reading.{first_fault, pair_of};

use crate::byte::{back, front};
use crate::number::{count_digits, is_digit_in, small_value};
use crate::rule::{FAULTY_ESCAPE, NOT_ONE_CHARACTER};
use crate::step::Fault;
use std::alloc::{AllocError, Global};

/// The bytes between the quotes of a constant or a literal.
pub fn inner(w: &[u8]) -> &[u8]
    ensures value { result.now ≡ spec.inner w.now }
    ensures within { length result.now ≤ length w.now - 2 }
{
    front(back(w, 1), w.len().saturating_sub(2))
}

// The value of an escape of one letter (C17 6.4.4.4), if it is one.
fn simple_escape(b: u8) -> Option<u8>
    ensures { result ≡ spec.simple_escape b }
{
    match b {
        b'\'' | b'"' | b'?' | b'\\' => Some(b),
        b'a' => Some(7),
        b'b' => Some(8),
        b'f' => Some(12),
        b'n' => Some(10),
        b'r' => Some(13),
        b't' => Some(9),
        b'v' => Some(11),
        _ => None,
    }
}

// The value of the digits of an escape, if it is at most 255.
fn byte_value(base: u8, digits: &[u8]) -> Option<u8>
    requires { 1 ≤ base }
    ensures { result ≡ spec.byte_value base digits.now }
{
    match small_value(base, digits) {
        None => None,
        Some(value) => {
            if value <= 255 {
                Some(value as u8)
            } else {
                None
            }
        }
    }
}

// How many octal digits there are, at most three.
fn octal_count(z: &[u8]) -> usize
    ensures value { result ≡ spec.octal_count z.now }
    ensures within { result ≤ length z.now }
{
    count_digits(8, front(z, 3))
}

// How many hexadecimal digits there are.
fn hex_count(z: &[u8]) -> usize
    ensures value { result ≡ spec.hex_count z.now }
    ensures within { result ≤ length z.now }
{
    count_digits(16, z)
}

// How many bytes belong to the escape behind a backslash.
fn escape_len(z: &[u8]) -> usize
    requires { length z.now < 2 ^ 63 }
    ensures value { result ≡ spec.escape_len z.now }
    ensures within { result ≤ length z.now }
{
    match z {
        [] => 0,
        [b, rest @ ..] => {
            if is_digit_in(8, *b) {
                octal_count(z)
            } else if *b == b'x' {
                1 + hex_count(rest)
            } else {
                1
            }
        }
    }
}

// The value of the escape behind a backslash, if it is one.
fn escape_value(z: &[u8]) -> Option<u8>
    ensures { result ≡ spec.escape_value z.now }
{
    match z {
        [] => None,
        [b, rest @ ..] => {
            if is_digit_in(8, *b) {
                byte_value(8, front(z, octal_count(z)))
            } else if *b == b'x' {
                hex_value(rest)
            } else {
                simple_escape(*b)
            }
        }
    }
}

// The value of the hexadecimal digits behind `\x`, if there are some and it is at most 255.
fn hex_value(z: &[u8]) -> Option<u8>
    ensures { result ≡ (if spec.hex_count z.now == 0 then None else spec.byte_value 16 (take (spec.hex_count z.now) z.now)) }
{
    let count = hex_count(z);
    if count == 0 {
        None
    } else {
        byte_value(16, front(z, count))
    }
}

/// How many bytes the character at the front has.
fn character_len(z: &[u8]) -> usize
    requires { length z.now < 2 ^ 63 }
    ensures value { result ≡ spec.character_len z.now }
    ensures some { 1 ≤ result }
    ensures within { 1 ≤ length z.now → result ≤ length z.now }
{
    match z {
        [b'\\', rest @ ..] => 1 + escape_len(rest),
        _ => 1,
    }
}

/// The value of the character at the front, if it is no faulty escape.
pub fn character_value(z: &[u8]) -> Option<u8>
    ensures { result ≡ spec.character_value z.now }
{
    match z {
        [] => Some(0),
        [b, rest @ ..] => {
            if *b == b'\\' {
                escape_value(rest)
            } else {
                Some(*b)
            }
        }
    }
}

/// The fault of the first faulty escape between quotes.
#[tactic(auto, using(crate::proofs::CharacterLemmas::faults_here))]
fn bad_escape(mut z: &[u8]) -> Option<Fault>
    requires { length z.now < 2 ^ 63 - 2 }
    ensures value { option_map pair_of result ≡ first_fault (spec.escape_faults (spec.characters 1 0 z.entry.now)) }
    ensures within { IfSome result (λ f. f.at ≤ length z.entry.now + 1) }
{
    let mut at: usize = 1;
    while z.len() != 0 {
        match character_value(z) {
            None => return Some(Fault {
                at,
                rule: FAULTY_ESCAPE,
            }),
            Some(_) => {
                let len = character_len(z);
                at += len;
                z = back(z, len);
            }
        }
    }
    None
}

/// The first fault of a string literal.
#[tactic(auto, unfolding(crate::specs::Characters::string_faults))]
pub fn string_fault(w: &[u8]) -> Option<Fault>
    requires { length w.now < 2 ^ 62 }
    ensures value { option_map pair_of result ≡ first_fault (spec.string_faults w.now) }
    ensures within { IfSome result (λ f. f.at ≤ length w.now + 1) }
{
    bad_escape(inner(w))
}

/// Whether there is exactly one character.
fn is_one_character(z: &[u8]) -> bool
    requires { length z.now < 2 ^ 63 }
    ensures { result ≡ (length (spec.characters 1 0 z.now) == 1) }
{
    z.len() != 0 && character_len(z) == z.len()
}

/// The first fault of a character constant.
#[tactic(auto, unfolding(crate::specs::Characters::character_faults))]
pub fn character_fault(w: &[u8]) -> Option<Fault>
    requires { length w.now < 2 ^ 62 }
    ensures value { option_map pair_of result ≡ first_fault (spec.character_faults w.now) }
    ensures within { IfSome result (λ f. f.at ≤ length w.now + 1) }
{
    let z = inner(w);
    if is_one_character(z) {
        bad_escape(z)
    } else {
        Some(Fault {
            at: 0,
            rule: NOT_ONE_CHARACTER,
        })
    }
}

/// The values of the characters between quotes.
#[tactic(auto, using(crate::proofs::CharacterLemmas::none_more))]
pub fn values_of(alloc: Global, mut z: &[u8]) -> Result<Vec<u8>, AllocError>
    requires { length z.now < 2 ^ 63 }
    ensures { IfOk result (λ v. v.items ≡ spec.values_of (spec.characters 1 0 z.entry.now)) }
{
    let mut values = Vec::new(alloc);
    while z.len() != 0 {
        match character_value(z) {
            None => z = back(z, character_len(z)),
            Some(value) => {
                values.push(value)?;
                z = back(z, character_len(z));
            }
        }
    }
    Ok(values)
}

/// A byte as a `char`.
pub fn as_char(value: u8) -> i128
    ensures { result ≡ spec.as_char value }
{
    if value < 128 {
        i128::from(value)
    } else {
        i128::from(value) - 256
    }
}
