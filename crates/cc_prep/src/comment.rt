// Comments that go over line ends.
ghost use Rattle.std.specs.Prelude.{◌≤◌, IfSome, length};

use crate::line::is_skipped;

// What follows the closing quote, for bytes behind the opening one; nothing where it doesn't come.
fn behind_quote(quote: u8, mut z: &[u8]) -> &[u8]
    ensures { length result.now ≤ length z.entry.now }
{
    let mut escaped = false;
    while let [b, rest @ ..] = z {
        if !escaped && *b == quote {
            return rest;
        }
        escaped = !escaped && *b == b'\\';
        z = rest;
    }
    z
}

// What follows the end of a comment, for bytes inside it; none where it doesn't come.
fn behind_comment(mut z: &[u8]) -> Option<&[u8]>
    ensures { IfSome result (λ rest. length rest.now ≤ length z.entry.now) }
{
    while let [b, rest @ ..] = z {
        if *b == b'*'
            && let [b'/', behind @ ..] = rest
        {
            return Some(behind);
        }
        z = rest;
    }
    None
}

// Whether a comment is open behind these bytes of a line, which stand in none.
fn opens_comment(mut z: &[u8]) -> bool {
    while let [b, rest @ ..] = z {
        match (*b, rest) {
            (b'/', [b'*', inside @ ..]) => match behind_comment(inside) {
                Some(behind) => z = behind,
                None => return true,
            },
            (b'/', [b'/', ..]) => return false,
            (b'"' | b'\'', _) => z = behind_quote(*b, rest),
            _ => z = rest,
        }
    }
    false
}

/// Whether a comment is open behind the line, if `open` says whether one is open before it.
pub fn is_open_behind(open: bool, line: &[u8]) -> bool {
    if open {
        match behind_comment(line) {
            Some(behind) => opens_comment(behind),
            None => true,
        }
    } else {
        !is_skipped(line) && opens_comment(line)
    }
}
