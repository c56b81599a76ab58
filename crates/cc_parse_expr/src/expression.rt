// Expressions, by climbing their levels.
ghost use Rattle.std.specs.Prelude.{◌≡◌, ◌<◌};
ghost use Rattle.cc_grammar.specs.Classes as class;
ghost use Rattle.cc_grammar.specs.Reading as spec;
ghost use Rattle.cc_tree.specs.Views.{view};
ghost use Rattle.cc_parse_tokens.specs.Gives.{Gives};
ghost use Rattle.cc_parse_expr.specs.Modes.{by};
ghost use Rattle.cc_parse_expr.specs.Nests.{Nests};

use crate::grammar::Grammar;
use crate::mode::Mode;
use crate::shape::level;
use cc_base::Spot;
use cc_parse_tokens::{Cursor, Fault, TypedefNames, binds, left_level};
use cc_tree::{Declarator, Expr, Spec};
use cc_tree_limits::expr_fits;
use sqlite_items::{Boxed, Items};
use std::alloc::Global;

impl<
    'n,
    E: Fn(Global, &mut Cursor<'_>, &TypedefNames, u32, u8) -> Result<Boxed<Expr<Spot>>, Fault>,
    S: Fn(Global, &mut Cursor<'_>, &TypedefNames, u32) -> Result<Items<Spec<Spot>>, Fault>,
    D: Fn(
        Global,
        &mut Cursor<'_>,
        &TypedefNames,
        u32,
        Mode,
    ) -> Result<Boxed<Declarator<Spot>>, Fault>,
> Grammar<'n, E, S, D> {
    /// Whether `left` goes on with the next token. One that is refused for the depth alone is marked.
    fn goes_on(&self, tokens: &mut Cursor<'_>, least: u8, left: &Expr<Spot>) -> bool
        requires room { 0 < self.now.depth }
        ensures answer { result ≡ by self.now spec.goes_on least (view left.now) (class.tail tokens.old) }
        ensures stays { tokens.new ≡ tokens.old }
    {
        let tail = tokens.tail();
        if least > binds(tail) || left_level(tail) > level(left) {
            return false;
        }
        if expr_fits(left, self.depth - 1) {
            return true;
        }
        tokens.mark();
        false
    }

    /// Goes on behind `first` as long as a token binds it, which is of this level at least (C17 6.5).
    fn climb(
        &self,
        tokens: &mut Cursor<'_>,
        least: u8,
        first: Boxed<Expr<Spot>>,
    ) -> Result<Boxed<Expr<Spot>>, Fault>
        requires room { 0 < self.now.depth }
        requires nests { Nests self.now E.pre E.post S.pre S.post D.pre D.post }
        ensures { Gives view (by self.now spec.climb least self.now.depth (view first) tokens.old) result tokens.new }
    {
        let mut left = first;
        while self.goes_on(tokens, least, left.get()) {
            let tail = tokens.tail();
            let note = tokens.spot();
            tokens.skip();
            left = self.go_on(tokens, left, tail, note)?;
        }
        Ok(left)
    }

    /// An expression of this level at least (C17 6.5).
    pub fn expression(&self, tokens: &mut Cursor<'_>, least: u8) -> Result<Boxed<Expr<Spot>>, Fault>
        requires nests { Nests self.now E.pre E.post S.pre S.post D.pre D.post }
        ensures { Gives view (by self.now spec.expression least tokens.old) result tokens.new }
    {
        if self.depth == 0 {
            if self.begins_expression(tokens) {
                tokens.mark();
            }
            return Err(Fault::Refused);
        }
        let first = self.prefix(tokens, least)?;
        self.climb(tokens, least, first)
    }
}
