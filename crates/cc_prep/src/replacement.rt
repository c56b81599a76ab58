// Lists in the place of macros' names (C17 6.10.3.4).
ghost use Rattle.std.specs.Prelude.{◌≡◌, ◌≤◌, ◌<◌, ◌+◌, false, IfErr, IfSome, OnOk, length};
ghost use Rattle.cc_prep.specs.Macros.{is_hidden};
ghost use Rattle.cc_prep.specs.Stops.{IsTooManyAt, IsTooManyIn, spot_in};

use crate::fault::Stop;
use crate::kind::copy_kind;
use crate::macros::{Hidden, Macros};
use crate::mark::shifted;
use crate::output::Output;
use cc_base::Spot;
use cc_lex::{Token, TokenKind};
use std::alloc::Global;

/// Where the tokens of a text stand in the project's file.
#[derive(Clone, Copy)]
pub enum Origin {
    /// The text is one of the project's file and begins here.
    Project(Spot),
    /// The text is one of an included file: all its tokens stand here.
    Included(Spot),
}

impl Origin {
    // The spot of a token that stands at this spot of the text.
    fn spot_of(self, spot: Spot) -> Spot
        ensures { result ≡ spot_in self spot }
    {
        match self {
            Origin::Project(first) => shifted(first, spot),
            Origin::Included(at) => at,
        }
    }
}

// A macro that is being replaced, and what is still to come of its list.
#[derive(Clone, Copy)]
struct Frame<'a> {
    number: usize,
    rest: &'a [TokenKind],
}

// The macro that this kind names, if it isn't hidden.
fn macro_of<'a>(macros: &'a Macros, hidden: &Hidden, kind: &TokenKind) -> Option<Frame<'a>>
    ensures { IfSome result (λ frame. is_hidden hidden.now frame.number ≡ false) }
{
    let TokenKind::Identifier(name) = kind else {
        return None;
    };
    match macros.find(name.as_str()) {
        Some((number, rest)) => {
            if hidden.has(number) {
                None
            } else {
                Some(Frame { number, rest })
            }
        }
        None => None,
    }
}

// Takes one token: it is a macro's name, whose list comes next, or it is added.
fn take_token<'a>(
    alloc: Global,
    macros: &'a Macros,
    hidden: &mut Hidden,
    frames: &mut Vec<Frame<'a>>,
    output: &mut Output,
    kind: &TokenKind,
    spot: Spot,
) -> Result<(), Stop>
    ensures more { OnOk result (output.new.steps ≡ output.old.steps + 1) }
    ensures most { OnOk result (output.old.steps < 1048576) }
    ensures frames { OnOk result (length frames.new.items ≤ length frames.old.items + 1) }
    ensures stops { IfErr result (IsTooManyAt spot) }
{
    output.count(spot)?;
    match macro_of(macros, hidden, kind) {
        Some(frame) => {
            hidden.hide(frame.number)?;
            frames.push(frame)?;
            Ok(())
        }
        None => output.add(copy_kind(alloc, kind)?, spot),
    }
}

// Adds what the token stands for.
fn add_token(
    alloc: Global,
    macros: &Macros,
    hidden: &mut Hidden,
    output: &mut Output,
    kind: &TokenKind,
    spot: Spot,
) -> Result<(), Stop>
    ensures { IfErr result (IsTooManyAt spot) }
{
    let mut frames = Vec::new(alloc);
    take_token(alloc, macros, hidden, &mut frames, output, kind, spot)?;
    while let Some(Frame { number, rest }) = frames.pop() {
        match rest {
            [] => hidden.show(number),
            [next, rest @ ..] => {
                frames.push(Frame { number, rest })?;
                take_token(alloc, macros, hidden, &mut frames, output, next, spot)?;
            }
        }
    }
    Ok(())
}

/// Adds what the tokens of a text stand for.
pub fn add_text(
    alloc: Global,
    macros: &Macros,
    hidden: &mut Hidden,
    output: &mut Output,
    tokens: &[Token],
    origin: Origin,
) -> Result<(), Stop>
    ensures { IfErr result (IsTooManyIn origin tokens.now) }
{
    for token in tokens {
        let spot = origin.spot_of(token.spot);
        add_token(alloc, macros, hidden, output, &token.kind, spot)?;
    }
    Ok(())
}
