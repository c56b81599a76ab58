// How the parser answers a text.

use cc_base::Memory;
use cc_lex::lex;
use cc_parse::{ParseFault, parse};
use std::alloc::Global;

// The longest text of which tokens are made.
pub const LONGEST: usize = 1048576;

// How the parser answers. A token is named by its number, from 0.
#[derive(Clone, Copy, PartialEq, Eq)]
pub enum Answer {
    File,
    Syntax(u64),
    TooDeep(u64),
    NoTokens,
}

pub fn answer_to(alloc: Global, text: &[u8]) -> Result<Answer, Memory> {
    if text.len() > LONGEST {
        return Ok(Answer::NoTokens);
    }
    let Ok(tokens) = lex(alloc, text) else {
        return Ok(Answer::NoTokens);
    };
    match parse(alloc, &tokens) {
        Ok(_) => Ok(Answer::File),
        Err(ParseFault::Syntax { token }) => Ok(Answer::Syntax(token)),
        Err(ParseFault::TooDeep { token }) => Ok(Answer::TooDeep(token)),
        Err(ParseFault::Memory) => Err(Memory),
    }
}

// Whether each text is answered as its row says.
pub fn are_answered(alloc: Global, rows: &[(&[u8], Answer)]) -> Result<bool, Memory> {
    for (text, wanted) in rows {
        if answer_to(alloc, text)? != *wanted {
            return Ok(false);
        }
    }
    Ok(true)
}
