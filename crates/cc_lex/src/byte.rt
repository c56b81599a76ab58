// Classes of bytes.
ghost use Rattle.std.specs.Prelude.{◌≡◌, ◌≤◌, take, drop, length};
ghost use Rattle.cc_lex.specs.Bytes as spec;

/// Whether the byte is a decimal digit.
pub fn is_digit(b: u8) -> bool
    ensures { result ≡ spec.is_digit b }
{
    b'0' <= b && b <= b'9'
}

/// Whether the byte is an octal digit.
pub fn is_octal_digit(b: u8) -> bool
    ensures { result ≡ spec.is_octal_digit b }
{
    b'0' <= b && b <= b'7'
}

/// Whether the byte is a hexadecimal digit, in either case.
pub fn is_hex_digit(b: u8) -> bool
    ensures { result ≡ spec.is_hex_digit b }
{
    is_digit(b) || ((b'a' <= b && b <= b'f') || (b'A' <= b && b <= b'F'))
}

/// Whether the byte is a letter of ASCII or `_`.
pub fn is_letter(b: u8) -> bool
    ensures { result ≡ spec.is_letter b }
{
    ((b'a' <= b && b <= b'z') || (b'A' <= b && b <= b'Z')) || b == b'_'
}

/// Whether the byte is `'` or `"`.
pub fn is_quote(b: u8) -> bool
    ensures { result ≡ spec.is_quote b }
{
    b == b'\'' || b == b'"'
}

/// Whether the byte is white: space, tab, line feed, vertical tab, form feed or carriage return.
pub fn is_white(b: u8) -> bool
    ensures { result ≡ spec.is_white b }
{
    b == b' ' || (9 <= b && b <= 13)
}

/// Whether the byte is a space or a tab.
pub fn is_blank(b: u8) -> bool
    ensures { result ≡ spec.is_blank b }
{
    b == b' ' || b == b'\t'
}

/// The first byte, or 0.
pub fn first(z: &[u8]) -> u8
    ensures { result ≡ spec.first z.now }
{
    match z {
        [] => 0,
        [b, ..] => *b,
    }
}

/// The second byte, or 0.
pub fn second(z: &[u8]) -> u8
    ensures { result ≡ spec.second z.now }
{
    match z {
        [] => 0,
        [_, rest @ ..] => first(rest),
    }
}

/// The first `len` bytes, or all if there are fewer.
pub fn front(z: &[u8], len: usize) -> &[u8]
    ensures value { result.now ≡ take len z.now }
    ensures within { length result.now ≤ length z.now }
{
    if len <= z.len() { &z[..len] } else { z }
}

/// What follows the first `len` bytes.
pub fn back(z: &[u8], len: usize) -> &[u8]
    ensures value { result.now ≡ drop len z.now }
    ensures within { length result.now ≤ length z.now }
{
    if len <= z.len() { &z[len..] } else { &[] }
}
