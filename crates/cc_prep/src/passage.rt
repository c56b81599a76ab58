// The text up to the next directive line.
ghost use Rattle.std.specs.Prelude.{◌≡◌, ◌≤◌, ◌⊎◌, ℕ, IfErr, IfOk, IfSome, MatchOption, length};
ghost use Rattle.cc_lex.specs.Cut.{Cut, IsRefused};
ghost use Rattle.cc_prep.specs.Comments.{EndsInComment};
ghost use Rattle.cc_prep.specs.Passages.{IsLineOf, IsOtherRule, IsPassage, IsPassageFault};

use crate::comment::is_open_behind;
use crate::line::{Head, directive_of, group_line_of, line_len};
use cc_lex::{LexFault, TokenList, lex};
use std::alloc::Global;

// The rule of a comment without its end.
const OPEN_COMMENT: u8 = 2;

/// A directive line, and where it stands.
#[derive(Clone, Copy)]
pub struct Line {
    /// How many bytes stand before it.
    pub at: usize,
    /// How many bytes it has, with its line feed.
    pub len: usize,
    pub head: Head,
}

/// The tokens of a text up to its first directive line.
#[derive(Drop)]
pub struct Passage {
    pub tokens: TokenList,
    /// The directive line; with none the text goes to its end.
    pub line: Option<Line>,
}

// The tokens of the bytes before a line that has the form of a directive line; none where it stands in a comment.
fn tokens_before(alloc: Global, bytes: &[u8]) -> Result<Option<TokenList>, LexFault>
    requires { length bytes.now ≤ 1048576 }
    ensures found { IfOk result (λ o. MatchOption o (EndsInComment bytes.now) (Cut bytes.now)) }
    ensures refused { IfErr result (IsRefused bytes.now) }
    ensures other { IfErr result IsOtherRule }
{
    match lex(alloc, bytes) {
        Ok(tokens) => Ok(Some(tokens)),
        Err(LexFault::At { offset, rule }) => {
            if rule == OPEN_COMMENT {
                Ok(None)
            } else {
                Err(LexFault::At { offset, rule })
            }
        }
        Err(LexFault::Memory) => Err(LexFault::Memory),
    }
}

// The tokens of a text without a directive line.
fn last_passage(alloc: Global, text: &[u8], in_group: bool) -> Result<Passage, LexFault>
    requires { length text.now ≤ 1048576 }
    ensures passage { IfOk result (IsPassage text.now in_group) }
    ensures fault { IfErr result (IsPassageFault text.now in_group) }
{
    match lex(alloc, text) {
        Ok(tokens) => Ok(Passage { tokens, line: None }),
        Err(fault) => Err(fault),
    }
}

/// The tokens up to the first directive line of a text, which begins at the beginning of a line. A line that stands in a
/// comment is none.
pub fn next_passage(alloc: Global, text: &[u8], in_group: bool) -> Result<Passage, LexFault>
    requires { length text.now ≤ 1048576 }
    ensures passage { IfOk result (IsPassage text.now in_group) }
    ensures fault { IfErr result (IsPassageFault text.now in_group) }
{
    let mut at = 0;
    let mut in_comment = false;
    while at < text.len() {
        let len = line_len(&text[at..]);
        let line = &text[at..at + len];
        if !in_comment && let Some(head) = directive_of(in_group, line) {
            match tokens_before(alloc, &text[..at]) {
                Ok(Some(tokens)) => {
                    return Ok(Passage {
                        tokens,
                        line: Some(Line { at, len, head }),
                    });
                }
                Ok(None) => in_comment = true,
                Err(fault) => return Err(fault),
            }
        }
        in_comment = is_open_behind(in_comment, line);
        at += len;
    }
    last_passage(alloc, text, in_group)
}

/// The first line of a text that begins, turns or ends a group, in a comment or not.
pub fn next_group_line(text: &[u8]) -> Option<Line>
    ensures { IfSome result (IsLineOf text.now) }
{
    let mut at = 0;
    while at < text.len() {
        let len = line_len(&text[at..]);
        if let Some(head) = group_line_of(&text[at..at + len]) {
            return Some(Line { at, len, head });
        }
        at += len;
    }
    None
}
