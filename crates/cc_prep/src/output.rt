// The tokens so far, and how many there may be.

ghost use Rattle.std.specs.Prelude.{◌≡◌, ◌<◌, ◌+◌, IfErr, OnOk};
ghost use Rattle.cc_prep.specs.Stops.{IsTooManyAt};

use crate::fault::Stop;
use cc_base::Spot;
use cc_lex::{Token, TokenKind, TokenList};
use std::alloc::Global;

/// How many replacements and tokens a file of the project may have together.
pub const MOST_STEPS: u64 = 1_048_576;

/// The tokens of a file of the project so far.
#[derive(Drop)]
pub struct Output {
    pub tokens: TokenList,
    /// How many replacements and tokens there were.
    pub steps: u64,
}

impl Output {
    /// No tokens. Takes no memory.
    pub fn new(alloc: Global) -> Output
        ensures { result.steps ≡ 0 }
    {
        Output {
            tokens: TokenList::new(alloc),
            steps: 0,
        }
    }

    /// Counts a replacement or a token at this spot.
    pub fn count(&mut self, spot: Spot) -> Result<(), Stop>
        ensures more { OnOk result (self.new.steps ≡ self.old.steps + 1) }
        ensures most { OnOk result (self.old.steps < 1048576) }
        ensures stops { IfErr result (IsTooManyAt spot) }
    {
        if self.steps >= MOST_STEPS {
            return Err(Stop::TooManyTokens(spot));
        }
        self.steps += 1;
        Ok(())
    }

    /// Adds a token.
    pub fn add(&mut self, kind: TokenKind, spot: Spot) -> Result<(), Stop>
        ensures same { OnOk result (self.new.steps ≡ self.old.steps) }
        ensures stops { IfErr result (IsTooManyAt spot) }
    {
        self.tokens.push(Token { kind, spot })?;
        Ok(())
    }
}
