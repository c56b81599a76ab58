// The tokens of a C file of the first form.
ghost use Rattle.std.specs.Prelude.{◌≡◌, ◌≤◌, ◌<◌, false, not, length, take, drop, IfOk, IfSome, IfNone, MatchOption};
ghost use Rattle.std.specs.List.{list_all, list_any, position};
ghost use Rattle.std.specs.Str.{bytes_eq};
ghost use Rattle.cc_first.specs.Names as names;
ghost use Rattle.cc_first.specs.Cut as cut;
ghost use Rattle.cc_first.specs.Tokens as tokens;
ghost use Rattle.cc_first.specs.Limit.{limit};

use cc_base::Spot;
use cc_lex::is_keyword;
use std::alloc::{AllocError, Global};
use std::str;

/// A punctuator of the first form.
#[derive(Clone, Copy, Debug, PartialEq, Eq)]
pub enum Mark {
    OpenParen,
    CloseParen,
    OpenBrace,
    CloseBrace,
    Semicolon,
}

/// What a token is.
#[derive(Clone, Copy)]
pub enum Kind<'a> {
    /// The keyword `void`.
    Void,
    /// An identifier that is no keyword and no word of an extension.
    Name(&'a str),
    Mark(Mark),
}

/// A token and where its first byte stands.
#[derive(Clone, Copy)]
pub struct Token<'a> {
    pub kind: Kind<'a>,
    pub spot: Spot,
}

// Words of extensions, which are refused.
const EXTENSIONS: [&str; 4] = ["asm", "__asm", "__asm__", "__attribute__"];

// Whether the text is one of the words.
fn is_one_of(text: &str, words: &[&str]) -> bool
    ensures { result ≡ list_any (λ word. bytes_eq word.now text.now) words.now }
{
    words.iter().any(|word| *word == text)
}

/// Whether the bytes are an identifier: letters, digits and `_`, not beginning with a digit (C17 6.4.2.1).
pub fn is_identifier(text: &[u8]) -> bool
    ensures { result ≡ names.is_identifier text.now }
{
    match text.first() {
        Some(first) => !first.is_ascii_digit() && are_word_bytes(text),
        None => false,
    }
}

fn is_word_byte(byte: u8) -> bool
    ensures { result ≡ names.is_word_byte byte }
{
    byte.is_ascii_alphanumeric() || byte == b'_'
}

fn are_word_bytes(text: &[u8]) -> bool
    ensures { result ≡ list_all names.is_word_byte text.now }
{
    text.iter().all(|byte| is_word_byte(*byte))
}

fn is_white(byte: u8) -> bool
    ensures { result ≡ cut.is_white byte }
{
    matches!(byte, b' ' | b'\t'..=b'\r')
}

fn mark_of(byte: u8) -> Option<Mark>
    ensures some { IfSome result (λ mark. byte ≡ tokens.mark_byte mark) }
    ensures none { IfNone result (tokens.is_mark byte ≡ false) }
{
    match byte {
        b'(' => Some(Mark::OpenParen),
        b')' => Some(Mark::CloseParen),
        b'{' => Some(Mark::OpenBrace),
        b'}' => Some(Mark::CloseBrace),
        b';' => Some(Mark::Semicolon),
        _ => None,
    }
}

// Where the first byte stands that can't stand in an identifier.
fn word_end(text: &[u8]) -> Option<usize>
    ensures { result ≡ position (λ byte. not (names.is_word_byte byte)) text.now }
{
    text.iter().position(|byte| !is_word_byte(*byte))
}

// How many bytes at the front could stand in an identifier.
fn word_len(text: &[u8]) -> usize
    ensures value { result ≡ tokens.word_len text.now }
    ensures within { result ≤ length text.now }
{
    match word_end(text) {
        Some(len) => len,
        None => text.len(),
    }
}

// The token that a word is in the first form.
fn word_kind(word: &[u8]) -> Option<Kind<'_>>
    ensures some { IfSome result (λ kind. tokens.IsKind kind × (tokens.text_of kind ≡ word.now)) }
    ensures none { IfNone result (tokens.is_form_word word.now ≡ false) }
{
    if !is_identifier(word) {
        return None;
    }
    let Ok(text) = str::from_utf8(word) else {
        return None;
    };
    if text == "void" {
        Some(Kind::Void)
    } else if is_keyword(word) || is_one_of(text, &EXTENSIONS) {
        None
    } else {
        Some(Kind::Name(text))
    }
}

// The token at the front of these bytes, and its length.
fn first_kind(text: &[u8]) -> Option<(Kind<'_>, usize)>
    ensures some { IfSome result (λ found. tokens.IsFirst text.now found.0 found.1) }
    ensures none { IfNone result (tokens.is_form_text (take (tokens.token_len text.now) text.now) ≡ false) }
{
    let first = text.first()?;
    match mark_of(*first) {
        Some(mark) => Some((Kind::Mark(mark), 1)),
        None => {
            let len = word_len(text);
            let kind = word_kind(&text[..len])?;
            Some((kind, len))
        }
    }
}

// The bytes behind the first ones.
fn behind(text: &[u8], len: usize) -> &[u8]
    requires { len ≤ length text.now }
    ensures { result.now ≡ drop len text.now }
{
    &text[len..]
}

/// The tokens of the bytes, or none where these are no white bytes and tokens of the first form.
pub fn read_tokens(alloc: Global, bytes: &[u8]) -> Result<Option<Vec<Token<'_>>>, AllocError>
    requires { length bytes.now ≤ limit }
    ensures some { IfOk result (λ read. IfSome read (λ found. tokens.IsTokens bytes.now found.items)) }
    ensures none { IfOk result (λ read. IfNone read (tokens.NoTokens bytes.now)) }
{
    let mut tokens = Vec::new(alloc);
    let mut rest = bytes;
    let mut spot = Spot::start();
    while let [first, ..] = rest {
        if is_white(*first) {
            spot = spot.next(*first);
            rest = behind(rest, 1);
        } else {
            let Some((kind, len)) = first_kind(rest) else {
                return Ok(None);
            };
            tokens.push(Token { kind, spot })?;
            spot.column += len as u32;
            rest = behind(rest, len);
        }
    }
    Ok(Some(tokens))
}
