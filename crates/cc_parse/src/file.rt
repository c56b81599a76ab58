// The tree of a file.
ghost use Rattle.std.specs.Prelude.{◌≡◌, ◌≢◌, ◌<◌, ◌+◌, length, nat_lt, IfOk, IfErr};
ghost use Rattle.cc_grammar.specs.Limit.{limit};
ghost use Rattle.cc_grammar.specs.Reading.{reading as grammar_reading};
ghost use Rattle.cc_tree.specs.Views.{view_file};
ghost use Rattle.cc_parse.specs.Answers.{IsTheTree, HasNoTree, IsRefused};
ghost use Rattle.cc_parse.specs.Unread.{unread, FailsBefore};
ghost use Rattle.cc_parse.specs.declared.fault.ParseFault.TheVariants as fault;

use crate::fault::ParseFault;
use cc_base::Memory;
use cc_lex::TokenList;
use cc_parse_files::reading;
use cc_parse_tokens::{Cursor, Fault};
use cc_tree::Unit;
use std::alloc::Global;

/// How deep a tree may be.
pub const MAX_DEPTH: u32 = 64;

/// How deep a tree may be where a token is tried that was refused. A token that reading refuses here too is refused at each
/// depth: no token needs more than two nodes more around it.
const DEPTH_TO_TELL: u32 = 66;

/// The one orderly tree, no deeper than [`MAX_DEPTH`], that the tokens spell, each node with its spot (C17 6.9).
///
/// Want of memory aside, which may come for any tokens, `Syntax` and `TooDeep` come exactly where there is no such tree. Their
/// token ends the shortest prefix of the tokens that no cut-off file within the limit of depth is spelled by: `TooDeep` where
/// a deeper one is, and `Syntax` where none is. Where each prefix begins a file, `Syntax` comes with the number of tokens.
/// Takes time in proportion to the tokens.
#[tactic(auto, using(crate::proofs::Answered::is_the_tree, crate::proofs::Answered::has_no_tree))]
pub fn parse(alloc: Global, tokens: &TokenList) -> Result<Unit, ParseFault>
    ensures found { IfOk result (λ f. IsTheTree tokens.now (view_file f)) }
    ensures refused { IfErr result (λ e. e ≢ fault.Memory → HasNoTree tokens.now) }
    ensures place { IfErr result (λ e. IsRefused tokens.now e) }
{
    let mut cursor = Cursor::new(tokens.as_slice());
    match reading(alloc, &mut cursor, MAX_DEPTH) {
        Ok(file) => Ok(file),
        Err(Fault::Memory) => Err(ParseFault::Memory),
        Err(Fault::Refused) => Err(refusal(alloc, tokens, cursor.len())),
    }
}

/// Why tokens are no file, of which reading leaves so many.
#[tactic(auto, using(crate::proofs::Answered::ended, crate::proofs::Answered::too_deep, crate::proofs::Answered::no_syntax))]
fn refusal(alloc: Global, tokens: &TokenList, left: usize) -> ParseFault
    requires fails { FailsBefore tokens.now left }
    ensures { IsRefused tokens.now result }
{
    let token = tokens.len().saturating_sub(left as u64);
    if left == 0 {
        return ParseFault::Syntax { token };
    }
    match gets_past(alloc, tokens, left) {
        Ok(true) => ParseFault::TooDeep { token },
        Ok(false) => ParseFault::Syntax { token },
        Err(Memory) => ParseFault::Memory,
    }
}

/// Whether reading that may be two deeper leaves fewer tokens than these.
fn gets_past(alloc: Global, tokens: &TokenList, left: usize) -> Result<bool, Memory>
    ensures { IfOk result (λ b. b ≡ nat_lt (length (unread (grammar_reading (limit + 2) tokens.now))) left) }
{
    let mut again = Cursor::new(tokens.as_slice());
    match reading(alloc, &mut again, DEPTH_TO_TELL) {
        Ok(_) | Err(Fault::Refused) => Ok(again.len() < left),
        Err(Fault::Memory) => Err(Memory),
    }
}
