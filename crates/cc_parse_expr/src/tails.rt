// What goes on behind an expression, after its token.
ghost use Rattle.std.specs.Prelude.{◌<◌, map};
ghost use Rattle.cc_grammar.specs.Classes as class;
ghost use Rattle.cc_grammar.specs.Outlines as outlines;
ghost use Rattle.cc_grammar.specs.Reading as spec;
ghost use Rattle.cc_tree.specs.Views.{view};
ghost use Rattle.cc_parse_tokens.specs.Classes.{tail_of};
ghost use Rattle.cc_parse_tokens.specs.Gives.{Gives};
ghost use Rattle.cc_parse_expr.specs.Branches as branch;
ghost use Rattle.cc_parse_expr.specs.Modes.{by, inner_of};
ghost use Rattle.cc_parse_expr.specs.Nests.{Nests};

use crate::grammar::Grammar;
use crate::identifier::identifier;
use crate::mode::Mode;
use crate::shape::begins;
use cc_base::Spot;
use cc_lex::Punct;
use cc_parse_tokens::{Cursor, Fault, Tail, TypedefNames, binary_level, levels};
use cc_tree::{AssignOp, BinaryOp, Declarator, Expr, Side, Spec, StepOp};
use sqlite_items::{Boxed, Items};
use std::alloc::Global;

impl<
    'n,
    E: Fn(Global, &mut Cursor<'_>, &TypedefNames, u32, u8) -> Result<Boxed<Expr<Spot>>, Fault>,
    S: Fn(Global, &mut Cursor<'_>, &TypedefNames, u32) -> Result<Items<Spec<Spot>>, Fault>,
    D: Fn(
        Global,
        &mut Cursor<'_>,
        &TypedefNames,
        u32,
        Mode,
    ) -> Result<Boxed<Declarator<Spot>>, Fault>,
> Grammar<'n, E, S, D> {
    /// The arguments behind a `(`, with the `)` (C17 6.5.2).
    fn arguments(&self, tokens: &mut Cursor<'_>) -> Result<Items<Expr<Spot>>, Fault>
        requires room { 0 < self.now.depth }
        requires nests { Nests self.now E.pre E.post S.pre S.post D.pre D.post }
        ensures { Gives (map view) (by self.now spec.arguments tokens.old) result tokens.new }
    {
        if tokens.next_is(Punct::RightParen) {
            tokens.skip();
            return Ok(Items::new(self.alloc));
        }
        let found = self.argument_list(tokens)?;
        tokens.take(Punct::RightParen)?;
        Ok(found)
    }

    /// Arguments, one at least, with commas between them.
    fn argument_list(&self, tokens: &mut Cursor<'_>) -> Result<Items<Expr<Spot>>, Fault>
        requires room { 0 < self.now.depth }
        requires nests { Nests self.now E.pre E.post S.pre S.post D.pre D.post }
        ensures { Gives (map view) (spec.separated ((inner_of self.now).expr 2) tokens.old) result tokens.new }
    {
        let mut found = Items::new(self.alloc);
        for _round in 0..tokens.len() {
            found.push(self.inner_expr(tokens, levels::ASSIGNMENT)?.into_inner())?;
            if !tokens.next_is(Punct::Comma) {
                return Ok(found);
            }
            tokens.skip();
        }
        Err(Fault::Refused)
    }

    /// The right operand of a binary operator (C17 6.5.5 to 6.5.14).
    fn operated(
        &self,
        tokens: &mut Cursor<'_>,
        left: Boxed<Expr<Spot>>,
        op: BinaryOp,
        note: Spot,
    ) -> Result<Boxed<Expr<Spot>>, Fault>
        requires room { 0 < self.now.depth }
        requires nests { Nests self.now E.pre E.post S.pre S.post D.pre D.post }
        ensures { Gives view (by self.now spec.go_on (view left) (class.goes_binary op) note tokens.old) result tokens.new }
    {
        let right = self.inner_expr(tokens, binary_level(op) + 1)?;
        Ok(Boxed::new(self.alloc, Expr::Binary(note, op, left, right))?)
    }

    /// What is assigned (C17 6.5.16).
    fn assigned(
        &self,
        tokens: &mut Cursor<'_>,
        left: Boxed<Expr<Spot>>,
        op: AssignOp,
        note: Spot,
    ) -> Result<Boxed<Expr<Spot>>, Fault>
        requires room { 0 < self.now.depth }
        requires nests { Nests self.now E.pre E.post S.pre S.post D.pre D.post }
        ensures { Gives view (by self.now spec.go_on (view left) (class.goes_assign op) note tokens.old) result tokens.new }
    {
        let right = self.inner_expr(tokens, levels::ASSIGNMENT)?;
        Ok(Boxed::new(self.alloc, Expr::Assign(note, op, left, right))?)
    }

    /// The two choices behind a `?` (C17 6.5.15).
    fn chosen(
        &self,
        tokens: &mut Cursor<'_>,
        left: Boxed<Expr<Spot>>,
        note: Spot,
    ) -> Result<Boxed<Expr<Spot>>, Fault>
        requires room { 0 < self.now.depth }
        requires nests { Nests self.now E.pre E.post S.pre S.post D.pre D.post }
        ensures { Gives view (by self.now spec.go_on (view left) class.goes_question note tokens.old) result tokens.new }
    {
        let yes = self.inner_expr(tokens, levels::COMMA)?;
        self.chosen_else(tokens, left, yes, note)
    }

    /// The choice behind a `:`, with the `:`.
    fn chosen_else(
        &self,
        tokens: &mut Cursor<'_>,
        test: Boxed<Expr<Spot>>,
        yes: Boxed<Expr<Spot>>,
        note: Spot,
    ) -> Result<Boxed<Expr<Spot>>, Fault>
        requires room { 0 < self.now.depth }
        requires nests { Nests self.now E.pre E.post S.pre S.post D.pre D.post }
        ensures { Gives view (branch.choosing (inner_of self.now) (view test) (view yes) note tokens.old) result tokens.new }
    {
        tokens.take(Punct::Colon)?;
        let no = self.inner_expr(tokens, levels::CONDITIONAL)?;
        Ok(Boxed::new(self.alloc, Expr::Cond(note, test, yes, no))?)
    }

    /// What follows a comma (C17 6.5.17).
    fn sequenced(
        &self,
        tokens: &mut Cursor<'_>,
        left: Boxed<Expr<Spot>>,
        note: Spot,
    ) -> Result<Boxed<Expr<Spot>>, Fault>
        requires room { 0 < self.now.depth }
        requires nests { Nests self.now E.pre E.post S.pre S.post D.pre D.post }
        ensures { Gives view (by self.now spec.go_on (view left) class.goes_comma note tokens.old) result tokens.new }
    {
        let right = self.inner_expr(tokens, levels::ASSIGNMENT)?;
        Ok(Boxed::new(self.alloc, Expr::Comma(note, left, right))?)
    }

    /// The arguments of a call, which stands where the function called begins (C17 6.5.2.2).
    fn called(
        &self,
        tokens: &mut Cursor<'_>,
        left: Boxed<Expr<Spot>>,
    ) -> Result<Boxed<Expr<Spot>>, Fault>
        requires room { 0 < self.now.depth }
        requires nests { Nests self.now E.pre E.post S.pre S.post D.pre D.post }
        ensures { Gives view (by self.now spec.go_on (view left) class.goes_call (outlines.begins (view left)) tokens.old) result tokens.new }
    {
        let arguments = self.arguments(tokens)?;
        let note = begins(left.get());
        Ok(Boxed::new(self.alloc, Expr::Call(note, left, arguments))?)
    }

    /// The index behind a `[`, with the `]` (C17 6.5.2.1).
    fn indexed(
        &self,
        tokens: &mut Cursor<'_>,
        left: Boxed<Expr<Spot>>,
        note: Spot,
    ) -> Result<Boxed<Expr<Spot>>, Fault>
        requires room { 0 < self.now.depth }
        requires nests { Nests self.now E.pre E.post S.pre S.post D.pre D.post }
        ensures { Gives view (by self.now spec.go_on (view left) class.goes_index note tokens.old) result tokens.new }
    {
        let at = self.inner_expr(tokens, levels::COMMA)?;
        tokens.take(Punct::RightBracket)?;
        Ok(Boxed::new(self.alloc, Expr::Index(note, left, at))?)
    }

    /// The member behind a `.` (C17 6.5.2.3).
    fn selected(
        &self,
        tokens: &mut Cursor<'_>,
        left: Boxed<Expr<Spot>>,
        note: Spot,
    ) -> Result<Boxed<Expr<Spot>>, Fault>
        ensures { Gives view (by self.now spec.go_on (view left) class.goes_dot note tokens.old) result tokens.new }
    {
        let name = identifier(self.alloc, tokens, self.names)?;
        Ok(Boxed::new(self.alloc, Expr::Member(note, left, name))?)
    }

    /// The member behind a `->` (C17 6.5.2.3).
    fn selected_behind(
        &self,
        tokens: &mut Cursor<'_>,
        left: Boxed<Expr<Spot>>,
        note: Spot,
    ) -> Result<Boxed<Expr<Spot>>, Fault>
        ensures { Gives view (by self.now spec.go_on (view left) class.goes_arrow note tokens.old) result tokens.new }
    {
        let name = identifier(self.alloc, tokens, self.names)?;
        Ok(Boxed::new(self.alloc, Expr::Arrow(note, left, name))?)
    }

    /// `++` or `--` behind an expression (C17 6.5.2.4).
    fn stepped(
        &self,
        tokens: &mut Cursor<'_>,
        left: Boxed<Expr<Spot>>,
        op: StepOp,
        note: Spot,
    ) -> Result<Boxed<Expr<Spot>>, Fault>
        ensures { Gives view (by self.now spec.go_on (view left) (class.goes_step op) note tokens.old) result tokens.new }
    {
        Ok(Boxed::new(self.alloc, Expr::Step(note, op, Side::After, left))?)
    }

    /// What goes on behind an expression, after its token (C17 6.5.2 to 6.5.17).
    pub fn go_on(
        &self,
        tokens: &mut Cursor<'_>,
        left: Boxed<Expr<Spot>>,
        tail: Tail,
        note: Spot,
    ) -> Result<Boxed<Expr<Spot>>, Fault>
        requires room { 0 < self.now.depth }
        requires nests { Nests self.now E.pre E.post S.pre S.post D.pre D.post }
        ensures { Gives view (by self.now spec.go_on (view left) (tail_of tail) note tokens.old) result tokens.new }
    {
        match tail {
            Tail::Binary(op) => self.operated(tokens, left, op, note),
            Tail::Assign(op) => self.assigned(tokens, left, op, note),
            Tail::Question => self.chosen(tokens, left, note),
            Tail::Comma => self.sequenced(tokens, left, note),
            Tail::Call => self.called(tokens, left),
            Tail::Index => self.indexed(tokens, left, note),
            Tail::Dot => self.selected(tokens, left, note),
            Tail::Arrow => self.selected_behind(tokens, left, note),
            Tail::Step(op) => self.stepped(tokens, left, op, note),
            Tail::End => Err(Fault::Refused),
        }
    }
}
