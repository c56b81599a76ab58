// What stands at the front of a text.
ghost use Rattle.std.specs.Prelude.{◌≡◌, ◌≤◌, ◌<◌, ◌+◌, ◌^◌, ◌==◌, if◌then◌else◌, length, take, drop, IfErr};
ghost use Rattle.cc_lex.specs.Bytes as bytes;
ghost use Rattle.cc_lex.specs.Faults as faults;
ghost use Rattle.cc_lex.specs.Meanings as meanings;
ghost use Rattle.cc_lex.specs.Pieces as pieces;
ghost use Rattle.cc_lex.specs.Reading as spec;
ghost use Rattle.cc_lex.specs.Reading.{stepped};

use crate::byte::{back, first, front, is_quote, is_white, second};
use crate::length::{begins_comment, begins_skipped, comment_len, token_len};
use crate::meaning::token_fault;
use crate::rule::{NO_PIECE, NOT_TAKEN, OPEN_COMMENT, OPEN_QUOTE, SPLICE};
use crate::run::{Class, run};

/// A piece, and how many bytes it has.
#[derive(Clone, Copy)]
pub enum Step {
    /// White bytes.
    White(usize),
    /// A comment.
    Comment(usize),
    /// A skipped line.
    Line(usize),
    /// A token.
    Token(usize),
}

/// A place in what stands at the front, and the rule that it breaks.
#[derive(Clone, Copy)]
pub struct Fault {
    /// How many bytes stand before the place.
    pub at: usize,
    /// The number of the rule, from 1 to 9.
    pub rule: u8,
}

fn begins_splice(z: &[u8]) -> bool
    ensures { result ≡ faults.begins_splice z.now }
{
    match z {
        [a, b, c, ..] => *a == 92 && (*b == 10 || (*b == 13 && *c == 10)),
        [a, b] => *a == 92 && *b == 10,
        _ => false,
    }
}

fn ends_trigraph(b: u8) -> bool
    ensures { result ≡ faults.ends_trigraph b }
{
    match b {
        b'=' | b'/' | b'\'' | b'(' | b')' | b'!' | b'<' | b'>' | b'-' => true,
        _ => false,
    }
}

fn begins_trigraph(z: &[u8]) -> bool
    ensures { result ≡ faults.begins_trigraph z.now }
{
    first(z) == b'?' && second(z) == b'?' && ends_trigraph(second(back(z, 1)))
}

/// The rule of what is faulty at the front of any text.
pub fn everywhere(z: &[u8]) -> Option<u8>
    ensures { result ≡ faults.everywhere z.now }
{
    if begins_splice(z) {
        Some(SPLICE)
    } else if begins_trigraph(z) {
        Some(NOT_TAKEN)
    } else {
        None
    }
}

fn judged(z: &[u8], len: usize) -> Result<Step, Fault>
    requires { length z.now < 2 ^ 62 }
    ensures value { stepped z.now result ≡ spec.judged (take len z.now) (meanings.faults (take len z.now) (bytes.first (drop len z.now))) }
    ensures within { IfErr result (λ f. f.at ≤ length z.now + 1) }
{
    match token_fault(front(z, len), first(back(z, len))) {
        None => Ok(Step::Token(len)),
        Some(fault) => Err(fault),
    }
}

fn comment(z: &[u8]) -> Result<Step, Fault>
    requires { length z.now < 2 ^ 62 }
    ensures value { stepped z.now result ≡ (if spec.comment_len z.now == 0 then Err (0, 2) else Ok (pieces.comment (take (spec.comment_len z.now) z.now))) }
    ensures within { IfErr result (λ f. f.at ≤ length z.now + 1) }
{
    let len = comment_len(z);
    if len == 0 {
        return Err(Fault {
            at: 0,
            rule: OPEN_COMMENT,
        });
    }
    Ok(Step::Comment(len))
}

/// The rule where no token begins.
fn unread(z: &[u8]) -> u8
    ensures { result ≡ spec.unread z.now }
{
    if is_quote(first(z)) {
        OPEN_QUOTE
    } else if begins_splice(z) {
        SPLICE
    } else {
        NO_PIECE
    }
}

fn token(z: &[u8]) -> Result<Step, Fault>
    requires { length z.now < 2 ^ 62 }
    ensures value { stepped z.now result ≡ (if spec.token_len z.now == 0 then Err (0, spec.unread z.now) else spec.judged (take (spec.token_len z.now) z.now) (meanings.faults (take (spec.token_len z.now) z.now) (bytes.first (drop (spec.token_len z.now) z.now)))) }
    ensures within { IfErr result (λ f. f.at ≤ length z.now + 1) }
{
    let len = token_len(z);
    if len == 0 {
        return Err(Fault {
            at: 0,
            rule: unread(z),
        });
    }
    judged(z, len)
}

/// What stands at the front.
pub fn read_step(starts: bool, z: &[u8]) -> Result<Step, Fault>
    requires { length z.now < 2 ^ 62 }
    ensures value { stepped z.now result ≡ spec.next starts z.now }
    ensures within { IfErr result (λ f. f.at ≤ length z.now + 1) }
{
    let b = first(z);
    if is_white(b) {
        return Ok(Step::White(run(Class::White, 0, z)));
    }
    if begins_comment(z) {
        return comment(z);
    }
    if b == b'#' {
        if starts && begins_skipped(z) {
            return Ok(Step::Line(run(Class::Line, 0, z)));
        }
        return Err(Fault {
            at: 0,
            rule: NOT_TAKEN,
        });
    }
    token(z)
}
