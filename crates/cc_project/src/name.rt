// Names, file names, requirements, reasons and C identifiers.
ghost use Rattle.std.specs.Prelude.{◌≡◌, true};
ghost use Rattle.std.specs.List.{list_all};
ghost use Rattle.cc_lex.specs.Bytes as lex;
ghost use Rattle.cc_project.specs.Names as spec;

use crate::limit::{MOST_FILE_NAME_BYTES, MOST_NAME_BYTES, MOST_REASON_BYTES};

// A letter, a digit, `_` or `-`.
fn in_name(byte: u8) -> bool
    ensures { result ≡ spec.in_name byte }
{
    byte.is_ascii_alphanumeric() || byte == b'_' || byte == b'-'
}

fn in_requirement(byte: u8) -> bool
    ensures { result ≡ spec.in_requirement byte }
{
    in_name(byte) || byte == b'.'
}

fn in_file_name(byte: u8) -> bool
    ensures { result ≡ spec.in_file_name byte }
{
    in_requirement(byte) || byte == b'/'
}

fn in_reason(byte: u8) -> bool
    ensures { result ≡ spec.in_reason byte }
{
    in_file_name(byte) || byte == b' ' || byte == b':'
}

fn are_in_name(text: &[u8]) -> bool
    ensures { result ≡ list_all spec.in_name text.now }
{
    text.iter().all(|byte| in_name(*byte))
}

fn are_in_requirement(text: &[u8]) -> bool
    ensures { result ≡ list_all spec.in_requirement text.now }
{
    text.iter().all(|byte| in_requirement(*byte))
}

fn are_in_file_name(text: &[u8]) -> bool
    ensures { result ≡ list_all spec.in_file_name text.now }
{
    text.iter().all(|byte| in_file_name(*byte))
}

fn are_in_reason(text: &[u8]) -> bool
    ensures { result ≡ list_all spec.in_reason text.now }
{
    text.iter().all(|byte| in_reason(*byte))
}

/// Whether the text is 1 to 64 bytes of letters, digits, `_` and `-`, beginning with a letter.
#[tactic(auto, using(crate::proofs::NameParts::name_parts))]
pub fn is_name(text: &[u8]) -> bool
    ensures { result ≡ spec.is_name text.now }
{
    match text.first() {
        Some(first) => {
            first.is_ascii_alphabetic() && are_in_name(text) && text.len() <= MOST_NAME_BYTES
        }
        None => false,
    }
}

/// Whether the text is 1 to 64 bytes of letters, digits, `_`, `-` and `.`.
#[tactic(auto, using(crate::proofs::NameParts::requirement_parts))]
pub fn is_requirement(text: &[u8]) -> bool
    ensures { result ≡ spec.is_requirement text.now }
{
    match text.first() {
        Some(_) => are_in_requirement(text) && text.len() <= MOST_NAME_BYTES,
        None => false,
    }
}

/// Whether the text is 1 to 200 bytes of letters, digits, `_`, `-`, `.` and `/`, not beginning with `/` and without a
/// part `..`.
#[tactic(auto, using(crate::proofs::NameParts::file_name_parts))]
pub fn is_file_name(text: &[u8]) -> bool
    ensures { result ≡ spec.is_file_name text.now }
{
    match text.first() {
        Some(first) => {
            *first != b'/'
                && are_in_file_name(text)
                && text.len() <= MOST_FILE_NAME_BYTES
                && !has_part_up(text)
        }
        None => false,
    }
}

/// Whether the text is 1 to 200 bytes of letters, digits, space, `_`, `-`, `.`, `:` and `/`, beginning with a letter.
#[tactic(auto, using(crate::proofs::NameParts::reason_parts))]
pub fn is_reason(text: &[u8]) -> bool
    ensures { result ≡ spec.is_reason text.now }
{
    match text.first() {
        Some(first) => {
            first.is_ascii_alphabetic() && are_in_reason(text) && text.len() <= MOST_REASON_BYTES
        }
        None => false,
    }
}

// Whether the text begins with the part `..`.
fn begins_up(text: &[u8]) -> bool
    ensures { result ≡ spec.begins_up text.now }
{
    matches!(text, [b'.', b'.'] | [b'.', b'.', b'/', ..])
}

// Whether one of the parts between slashes is `..`.
fn has_part_up(text: &[u8]) -> bool
    ensures { result ≡ spec.has_part_up true text.now }
{
    let mut begins = true;
    for i in 0..text.len() {
        if begins && begins_up(&text[i..]) {
            return true;
        }
        begins = text[i] == b'/';
    }
    false
}

fn is_letter(byte: u8) -> bool
    ensures { result ≡ lex.is_letter byte }
{
    byte.is_ascii_lowercase() || byte.is_ascii_uppercase() || byte == b'_'
}

// A byte that goes on with an identifier.
fn in_identifier(byte: u8) -> bool
    ensures { result ≡ lex.in_name 0 byte }
{
    is_letter(byte) || byte.is_ascii_digit()
}

fn are_in_identifier(text: &[u8]) -> bool
    ensures { result ≡ list_all (lex.in_name 0) text.now }
{
    text.iter().all(|byte| in_identifier(*byte))
}

// Whether the text is an identifier of C, or a keyword.
#[tactic(auto, using(crate::proofs::NameParts::identifier_parts))]
fn is_identifier(text: &[u8]) -> bool
    ensures { result ≡ spec.is_identifier text.now }
{
    match text.first() {
        Some(first) => is_letter(*first) && are_in_identifier(text),
        None => false,
    }
}

/// Whether the text is an identifier of C that is no keyword.
pub fn is_function_name(text: &[u8]) -> bool
    ensures { result ≡ spec.is_function_name text.now }
{
    is_identifier(text) && !cc_lex::is_keyword(text)
}
