// What stands inside of a rule.
ghost use Rattle.std.specs.Prelude.{◌≡◌, ◌<◌};
ghost use Rattle.cc_tree.specs.Views.{view, view_declarator, specs_of};
ghost use Rattle.cc_parse_tokens.specs.Gives.{Gives};
ghost use Rattle.cc_parse_expr.specs.Modes.{mode_of, inner_of};
ghost use Rattle.cc_parse_expr.specs.Nests.{Nests};

use crate::mode::Mode;
use cc_base::Spot;
use cc_parse_tokens::{Cursor, Fault, TypedefNames};
use cc_tree::{Declarator, Expr, Spec};
use sqlite_items::{Boxed, Items};
use std::alloc::Global;

/// The rules of the grammar where what is read is no deeper than `depth`, over the readers of what stands inside.
#[derive(Clone, Copy)]
pub struct Grammar<'n, E, S, D> {
    pub alloc: Global,
    pub names: &'n TypedefNames,
    pub depth: u32,
    pub expr: E,
    pub specs: S,
    pub declarator: D,
}

impl<
    'n,
    E: Fn(Global, &mut Cursor<'_>, &TypedefNames, u32, u8) -> Result<Boxed<Expr<Spot>>, Fault>,
    S: Fn(Global, &mut Cursor<'_>, &TypedefNames, u32) -> Result<Items<Spec<Spot>>, Fault>,
    D: Fn(
        Global,
        &mut Cursor<'_>,
        &TypedefNames,
        u32,
        Mode,
    ) -> Result<Boxed<Declarator<Spot>>, Fault>,
> Grammar<'n, E, S, D> {
    /// An expression inside.
    #[tactic(auto, using(crate::proofs::InnerReaders::inner_is))]
    pub fn inner_expr(&self, tokens: &mut Cursor<'_>, least: u8) -> Result<Boxed<Expr<Spot>>, Fault>
        requires room { 0 < self.now.depth }
        requires nests { Nests self.now E.pre E.post S.pre S.post D.pre D.post }
        ensures { Gives view ((inner_of self.now).expr least tokens.old) result tokens.new }
    {
        (self.expr)(self.alloc, tokens, self.names, self.depth - 1, least)
    }

    /// Specifiers inside.
    #[tactic(auto, using(crate::proofs::InnerReaders::inner_is))]
    pub fn inner_specs(&self, tokens: &mut Cursor<'_>) -> Result<Items<Spec<Spot>>, Fault>
        requires room { 0 < self.now.depth }
        requires nests { Nests self.now E.pre E.post S.pre S.post D.pre D.post }
        ensures { Gives specs_of ((inner_of self.now).specs tokens.old) result tokens.new }
    {
        (self.specs)(self.alloc, tokens, self.names, self.depth - 1)
    }

    /// A declarator inside.
    #[tactic(auto, using(crate::proofs::InnerReaders::inner_is))]
    pub fn inner_declarator(
        &self,
        tokens: &mut Cursor<'_>,
        mode: Mode,
    ) -> Result<Boxed<Declarator<Spot>>, Fault>
        requires room { 0 < self.now.depth }
        requires nests { Nests self.now E.pre E.post S.pre S.post D.pre D.post }
        ensures { Gives view_declarator ((inner_of self.now).declarator (mode_of mode) tokens.old) result tokens.new }
    {
        (self.declarator)(self.alloc, tokens, self.names, self.depth - 1, mode)
    }
}
