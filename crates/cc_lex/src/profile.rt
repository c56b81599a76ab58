// Words and punctuators that the profile does not have.
ghost use Rattle.std.specs.Prelude.{◌≡◌, MatchOption};
ghost use Rattle.cc_lex.specs.Banned as spec;
ghost use Rattle.cc_lex.specs.Banned.{IsAllowed, IsFirstBanned};

use crate::keyword::Keyword;
use crate::meaning::is_same;
use crate::punct::Punct;
use crate::token::{TokenKind, TokenList};

fn keyword_rule(keyword: Keyword) -> Option<u8>
    ensures { result ≡ spec.keyword_rule keyword }
{
    match keyword {
        Keyword::Float | Keyword::Double | Keyword::Complex | Keyword::Imaginary => Some(1),
        Keyword::Union => Some(2),
        Keyword::Goto => Some(3),
        Keyword::Volatile => Some(4),
        Keyword::Restrict => Some(5),
        Keyword::Register | Keyword::Auto => Some(6),
        Keyword::Atomic => Some(7),
        Keyword::ThreadLocal => Some(8),
        Keyword::Alignas | Keyword::Alignof => Some(9),
        Keyword::Generic => Some(10),
        Keyword::Noreturn => Some(11),
        Keyword::StaticAssert => Some(12),
        _ => None,
    }
}

fn is_assembly(w: &[u8]) -> bool
    ensures { result ≡ spec.is_assembly w.now }
{
    is_same(b"asm", w)
        || is_same(b"__asm", w)
        || is_same(b"__asm__", w)
        || is_same(b"__attribute__", w)
}

fn banned_rule(kind: &TokenKind) -> Option<u8>
    ensures { result ≡ spec.banned_rule kind.now }
{
    match kind {
        TokenKind::Keyword(keyword) => keyword_rule(*keyword),
        TokenKind::Punct(Punct::Ellipsis) => Some(13),
        TokenKind::Identifier(name) => {
            if is_assembly(name.as_str().as_bytes()) {
                Some(14)
            } else {
                None
            }
        }
        _ => None,
    }
}

/// The index of the first token that meets one of the rules C1 to C14, and that rule. Takes no memory.
pub fn banned(tokens: &TokenList) -> Option<(u64, u8)>
    ensures { MatchOption result (IsAllowed tokens.now) (λ r. IsFirstBanned tokens.now r.0 r.1) }
{
    for i in 0..tokens.len() {
        match banned_rule(&tokens.get(i).kind) {
            None => {}
            Some(rule) => return Some((i, rule)),
        }
    }
    None
}
