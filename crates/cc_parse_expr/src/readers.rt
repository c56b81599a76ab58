// The readers, tied together.
ghost use Rattle.std.specs.Prelude.{◌≡◌};
ghost use Rattle.cc_grammar.specs.Reading as spec;
ghost use Rattle.cc_tree.specs.Views.{view, view_declarator, specs_of};
ghost use Rattle.cc_parse_tokens.specs.Gives.{Gives};
ghost use Rattle.cc_parse_expr.specs.Modes.{mode_of};

use crate::grammar::Grammar;
use crate::mode::Mode;
use cc_base::Spot;
use cc_parse_tokens::{Cursor, Fault, TypedefNames};
use cc_tree::{Declarator, Expr, Spec};
use sqlite_items::{Boxed, Items};
use std::alloc::Global;

/// An expression of this level at least, no deeper than `depth` (C17 6.5).
#[cycle(readers)]
#[tactic(auto, using(crate::proofs::InnerReaders::readers_open))]
pub fn expr(
    alloc: Global,
    tokens: &mut Cursor<'_>,
    names: &TypedefNames,
    depth: u32,
    least: u8,
) -> Result<Boxed<Expr<Spot>>, Fault>
    ensures { Gives view ((spec.readers names.now depth).expr least tokens.old) result tokens.new }
{
    Grammar {
        alloc,
        names,
        depth,
        expr,
        specs,
        declarator,
    }
    .expression(tokens, least)
}

/// Specifiers, one at least, no deeper than `depth` (C17 6.7).
#[cycle(readers)]
#[tactic(auto, using(crate::proofs::InnerReaders::readers_open))]
pub fn specs(
    alloc: Global,
    tokens: &mut Cursor<'_>,
    names: &TypedefNames,
    depth: u32,
) -> Result<Items<Spec<Spot>>, Fault>
    ensures { Gives specs_of ((spec.readers names.now depth).specs tokens.old) result tokens.new }
{
    Grammar {
        alloc,
        names,
        depth,
        expr,
        specs,
        declarator,
    }
    .specs(tokens)
}

/// A declarator no deeper than `depth`: with a name, without one, or either (C17 6.7.6, 6.7.7).
#[cycle(readers)]
#[tactic(auto, using(crate::proofs::InnerReaders::readers_open))]
pub fn declarator(
    alloc: Global,
    tokens: &mut Cursor<'_>,
    names: &TypedefNames,
    depth: u32,
    mode: Mode,
) -> Result<Boxed<Declarator<Spot>>, Fault>
    ensures { Gives view_declarator ((spec.readers names.now depth).declarator (mode_of mode) tokens.old) result tokens.new }
{
    Grammar {
        alloc,
        names,
        depth,
        expr,
        specs,
        declarator,
    }
    .declarator(tokens, mode)
}
