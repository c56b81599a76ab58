// Type names and parameters.
ghost use Rattle.std.specs.Prelude.{◌<◌, map};
ghost use Rattle.cc_grammar.specs.Reading as spec;
ghost use Rattle.cc_tree.specs.Views.{view_type};
ghost use Rattle.cc_parse_tokens.specs.Gives.{Gives};
ghost use Rattle.cc_parse_expr.specs.Modes.{mode_of, by};
ghost use Rattle.cc_parse_expr.specs.Nests.{Nests};

use crate::grammar::Grammar;
use crate::mode::Mode;
use cc_base::Spot;
use cc_lex::Punct;
use cc_parse_tokens::{Cursor, Fault, TypedefNames};
use cc_tree::{Declarator, Expr, Spec, TypeName};
use sqlite_items::{Boxed, Items};
use std::alloc::Global;

impl<
    'n,
    E: Fn(Global, &mut Cursor<'_>, &TypedefNames, u32, u8) -> Result<Boxed<Expr<Spot>>, Fault>,
    S: Fn(Global, &mut Cursor<'_>, &TypedefNames, u32) -> Result<Items<Spec<Spot>>, Fault>,
    D: Fn(
        Global,
        &mut Cursor<'_>,
        &TypedefNames,
        u32,
        Mode,
    ) -> Result<Boxed<Declarator<Spot>>, Fault>,
> Grammar<'n, E, S, D> {
    /// A type name, or a parameter: specifiers, then a declarator (C17 6.7.6.3, 6.7.7).
    pub fn typed(&self, tokens: &mut Cursor<'_>, mode: Mode) -> Result<Boxed<TypeName<Spot>>, Fault>
        requires room { 0 < self.now.depth }
        requires nests { Nests self.now E.pre E.post S.pre S.post D.pre D.post }
        ensures { Gives view_type (by self.now spec.typed (mode_of mode) tokens.old) result tokens.new }
    {
        let note = tokens.spot();
        let specs = self.inner_specs(tokens)?;
        let declarator = self.inner_declarator(tokens, mode)?;
        let name = TypeName {
            note,
            specs,
            declarator: declarator.into_inner(),
        };
        Ok(Boxed::new(self.alloc, name)?)
    }

    /// The parameters behind a `(`, with the `)` (C17 6.7.6.3).
    pub fn parameters(&self, tokens: &mut Cursor<'_>) -> Result<Items<TypeName<Spot>>, Fault>
        requires room { 0 < self.now.depth }
        requires nests { Nests self.now E.pre E.post S.pre S.post D.pre D.post }
        ensures { Gives (map view_type) (by self.now spec.parameters tokens.old) result tokens.new }
    {
        if tokens.next_is(Punct::RightParen) {
            tokens.skip();
            return Ok(Items::new(self.alloc));
        }
        let found = self.parameter_list(tokens)?;
        tokens.take(Punct::RightParen)?;
        Ok(found)
    }

    /// Parameters, one at least, with commas between them.
    fn parameter_list(&self, tokens: &mut Cursor<'_>) -> Result<Items<TypeName<Spot>>, Fault>
        requires room { 0 < self.now.depth }
        requires nests { Nests self.now E.pre E.post S.pre S.post D.pre D.post }
        ensures { Gives (map view_type) (spec.separated (by self.now spec.typed spec.with_or_without) tokens.old) result tokens.new }
    {
        let mut found = Items::new(self.alloc);
        for _round in 0..tokens.len() {
            found.push(self.typed(tokens, Mode::Either)?.into_inner())?;
            if !tokens.next_is(Punct::Comma) {
                return Ok(found);
            }
            tokens.skip();
        }
        Err(Fault::Refused)
    }
}
