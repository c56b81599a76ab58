// How expressions begin.
ghost use Rattle.std.specs.Prelude.{◌<◌, ◌≡◌};
ghost use Rattle.cc_grammar.specs.Classes as class;
ghost use Rattle.cc_grammar.specs.Reading as spec;
ghost use Rattle.cc_tree.specs.Views.{view, view_type};
ghost use Rattle.cc_parse_tokens.specs.Classes.{integer_of, character_of};
ghost use Rattle.cc_parse_tokens.specs.Gives.{Gives};
ghost use Rattle.cc_parse_expr.specs.Branches as branch;
ghost use Rattle.cc_parse_expr.specs.Modes.{by, inner_of};
ghost use Rattle.cc_parse_expr.specs.Nests.{Nests};

use crate::grammar::Grammar;
use crate::identifier::identifier;
use crate::mode::Mode;
use cc_base::{Bytes, List, Spot};
use cc_lex::Punct;
use cc_parse_tokens::{Cursor, Fault, Start, TypedefNames, levels};
use cc_tree::{Declarator, Expr, Side, Spec, StepOp, TypeName, UnaryOp};
use sqlite_items::{Boxed, Items};
use std::alloc::Global;

impl<
    'n,
    E: Fn(Global, &mut Cursor<'_>, &TypedefNames, u32, u8) -> Result<Boxed<Expr<Spot>>, Fault>,
    S: Fn(Global, &mut Cursor<'_>, &TypedefNames, u32) -> Result<Items<Spec<Spot>>, Fault>,
    D: Fn(
        Global,
        &mut Cursor<'_>,
        &TypedefNames,
        u32,
        Mode,
    ) -> Result<Boxed<Declarator<Spot>>, Fault>,
> Grammar<'n, E, S, D> {
    /// Whether the next token begins an expression. A typedef name doesn't.
    pub fn begins_expression(&self, tokens: &Cursor<'_>) -> bool {
        tokens.start() != Start::Nothing && !tokens.starts_spec(self.names)
    }

    /// The string literal that comes next.
    fn literal(&self, tokens: &mut Cursor<'_>) -> Result<Bytes, Fault>
        ensures { Gives (λ x. x) (by self.now spec.literal_by (class.next_literal tokens.old) tokens.old) result tokens.new }
    {
        let Some(bytes) = tokens.literal() else {
            return Err(Fault::Refused);
        };
        let copy = Bytes::new(Vec::from_slice(self.alloc, bytes.bytes())?);
        tokens.skip();
        Ok(copy)
    }

    /// Whether a string literal comes next.
    fn has_literal(&self, tokens: &Cursor<'_>) -> bool
        ensures { result ≡ by self.now spec.is_literal (class.next_literal tokens.now) }
    {
        tokens.literal().is_some()
    }

    /// String literals, one at least, side by side (C17 6.4.5p5).
    fn literals(&self, tokens: &mut Cursor<'_>) -> Result<List<Bytes>, Fault>
        ensures { Gives (λ x. x) (by self.now spec.literals tokens.old) result tokens.new }
    {
        let mut found = List::new(self.alloc);
        for _round in 0..tokens.len() {
            found.push(self.literal(tokens)?)?;
            if !self.has_literal(tokens) {
                return Ok(found);
            }
        }
        Err(Fault::Refused)
    }

    /// A name as an expression (C17 6.5.1p2).
    fn named(&self, tokens: &mut Cursor<'_>, note: Spot) -> Result<Boxed<Expr<Spot>>, Fault>
        ensures { Gives view (branch.naming self.now.names.now note tokens.old) result tokens.new }
    {
        let name = identifier(self.alloc, tokens, self.names)?;
        Ok(Boxed::new(self.alloc, Expr::Name(note, name))?)
    }

    /// String literals as an expression (C17 6.5.1p4).
    fn quoted(&self, tokens: &mut Cursor<'_>, note: Spot) -> Result<Boxed<Expr<Spot>>, Fault>
        ensures { Gives view (by self.now branch.quoting note tokens.old) result tokens.new }
    {
        let strings = self.literals(tokens)?;
        Ok(Boxed::new(self.alloc, Expr::Str(note, strings))?)
    }

    /// A type behind a `(`, with the `)`, and what is cast to it (C17 6.5.4).
    fn casted(&self, tokens: &mut Cursor<'_>, note: Spot) -> Result<Boxed<Expr<Spot>>, Fault>
        requires room { 0 < self.now.depth }
        requires nests { Nests self.now E.pre E.post S.pre S.post D.pre D.post }
        ensures { Gives view (by self.now branch.casting note tokens.old) result tokens.new }
    {
        let to = self.typed(tokens, Mode::Abstract)?;
        self.cast_operand(tokens, to, note)
    }

    /// What is cast to a type, behind the `)`, with the `)`.
    fn cast_operand(
        &self,
        tokens: &mut Cursor<'_>,
        to: Boxed<TypeName<Spot>>,
        note: Spot,
    ) -> Result<Boxed<Expr<Spot>>, Fault>
        requires room { 0 < self.now.depth }
        requires nests { Nests self.now E.pre E.post S.pre S.post D.pre D.post }
        ensures { Gives view (branch.cast_operand (inner_of self.now) (view_type to) note tokens.old) result tokens.new }
    {
        tokens.take(Punct::RightParen)?;
        let e = self.inner_expr(tokens, levels::CAST)?;
        Ok(Boxed::new(self.alloc, Expr::Cast(note, to, e))?)
    }

    /// An expression behind a `(`, with the `)` (C17 6.5.1p5).
    fn enclosed(&self, tokens: &mut Cursor<'_>, note: Spot) -> Result<Boxed<Expr<Spot>>, Fault>
        requires room { 0 < self.now.depth }
        requires nests { Nests self.now E.pre E.post S.pre S.post D.pre D.post }
        ensures { Gives view (branch.enclosing (inner_of self.now) note tokens.old) result tokens.new }
    {
        let e = self.inner_expr(tokens, levels::COMMA)?;
        tokens.take(Punct::RightParen)?;
        Ok(Boxed::new(self.alloc, Expr::Paren(note, e))?)
    }

    /// A form that a `(` begins: a cast where a specifier comes and the level leaves room for one (C17 6.5.1, 6.5.4).
    fn parenthesized(
        &self,
        tokens: &mut Cursor<'_>,
        least: u8,
        note: Spot,
    ) -> Result<Boxed<Expr<Spot>>, Fault>
        requires room { 0 < self.now.depth }
        requires nests { Nests self.now E.pre E.post S.pre S.post D.pre D.post }
        ensures { Gives view (by self.now spec.behind_paren least note (class.skip tokens.old)) result tokens.new }
    {
        tokens.skip();
        if tokens.starts_spec(self.names) && least <= levels::CAST {
            self.casted(tokens, note)
        } else {
            self.enclosed(tokens, note)
        }
    }

    /// A type in parentheses behind `sizeof` (C17 6.5.3.4).
    fn type_size(&self, tokens: &mut Cursor<'_>, note: Spot) -> Result<Boxed<Expr<Spot>>, Fault>
        requires room { 0 < self.now.depth }
        requires nests { Nests self.now E.pre E.post S.pre S.post D.pre D.post }
        ensures { Gives view (by self.now branch.sizing note tokens.old) result tokens.new }
    {
        tokens.skip();
        let of = self.typed(tokens, Mode::Abstract)?;
        tokens.take(Punct::RightParen)?;
        Ok(Boxed::new(self.alloc, Expr::SizeType(note, of))?)
    }

    /// `sizeof` and its operand (C17 6.5.3.4).
    ///
    /// Where an operand would be too deep, a parenthesis may still begin a type, and so it is taken.
    fn sized(&self, tokens: &mut Cursor<'_>, note: Spot) -> Result<Boxed<Expr<Spot>>, Fault>
        requires room { 0 < self.now.depth }
        requires nests { Nests self.now E.pre E.post S.pre S.post D.pre D.post }
        ensures { Gives view (by self.now spec.behind_sizeof note (class.skip tokens.old)) result tokens.new }
    {
        tokens.skip();
        let has_paren = tokens.next_is(Punct::LeftParen);
        if has_paren && tokens.behind().starts_spec(self.names) {
            return self.type_size(tokens, note);
        }
        if has_paren && self.depth == 1 {
            tokens.skip();
            if self.begins_expression(tokens) {
                tokens.mark();
            }
            return Err(Fault::Refused);
        }
        let e = self.inner_expr(tokens, levels::UNARY)?;
        Ok(Boxed::new(self.alloc, Expr::SizeExpr(note, e))?)
    }

    /// The operand of a prefix operator, with the operator (C17 6.5.3.2, 6.5.3.3).
    fn operand(
        &self,
        tokens: &mut Cursor<'_>,
        op: UnaryOp,
        note: Spot,
    ) -> Result<Boxed<Expr<Spot>>, Fault>
        requires room { 0 < self.now.depth }
        requires nests { Nests self.now E.pre E.post S.pre S.post D.pre D.post }
        ensures { Gives view (branch.operand (inner_of self.now) op note tokens.old) result tokens.new }
    {
        tokens.skip();
        let e = self.inner_expr(tokens, levels::CAST)?;
        Ok(Boxed::new(self.alloc, Expr::Unary(note, op, e))?)
    }

    /// What `++` or `--` stands before, with the operator (C17 6.5.3.1).
    fn stepped_first(
        &self,
        tokens: &mut Cursor<'_>,
        op: StepOp,
        note: Spot,
    ) -> Result<Boxed<Expr<Spot>>, Fault>
        requires room { 0 < self.now.depth }
        requires nests { Nests self.now E.pre E.post S.pre S.post D.pre D.post }
        ensures { Gives view (branch.stepping (inner_of self.now) op note tokens.old) result tokens.new }
    {
        tokens.skip();
        let e = self.inner_expr(tokens, levels::UNARY)?;
        Ok(Boxed::new(self.alloc, Expr::Step(note, op, Side::Before, e))?)
    }

    /// An integer constant as an expression (C17 6.4.4.1).
    fn integer(&self, tokens: &mut Cursor<'_>, note: Spot) -> Result<Boxed<Expr<Spot>>, Fault>
        ensures { Gives view (branch.integer_by (integer_of (class.start tokens.old)) note tokens.old) result tokens.new }
    {
        let Some((value, kind)) = tokens.integer() else {
            return Err(Fault::Refused);
        };
        tokens.skip();
        Ok(Boxed::new(self.alloc, Expr::Int(note, value, kind))?)
    }

    /// A character constant as an expression (C17 6.4.4.4).
    fn character(&self, tokens: &mut Cursor<'_>, note: Spot) -> Result<Boxed<Expr<Spot>>, Fault>
        ensures { Gives view (branch.character_by (character_of (class.start tokens.old)) note tokens.old) result tokens.new }
    {
        let Some(value) = tokens.character() else {
            return Err(Fault::Refused);
        };
        tokens.skip();
        Ok(Boxed::new(self.alloc, Expr::Char(note, value))?)
    }

    /// An expression, as far as nothing goes on behind it (C17 6.5.1, 6.5.3, 6.5.4).
    pub fn prefix(&self, tokens: &mut Cursor<'_>, least: u8) -> Result<Boxed<Expr<Spot>>, Fault>
        requires room { 0 < self.now.depth }
        requires nests { Nests self.now E.pre E.post S.pre S.post D.pre D.post }
        ensures { Gives view (by self.now spec.prefix least (class.start tokens.old) (class.spot tokens.old) tokens.old) result tokens.new }
    {
        let note = tokens.spot();
        match tokens.start() {
            Start::Name => self.named(tokens, note),
            Start::Integer => self.integer(tokens, note),
            Start::Character => self.character(tokens, note),
            Start::Str => self.quoted(tokens, note),
            Start::Paren => self.parenthesized(tokens, least, note),
            Start::Unary(op) => self.operand(tokens, op, note),
            Start::Step(op) => self.stepped_first(tokens, op, note),
            Start::Sizeof => self.sized(tokens, note),
            Start::Nothing => Err(Fault::Refused),
        }
    }
}
