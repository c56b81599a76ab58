// `while`, `do` and `for` (C17 6.8.5).
ghost use Rattle.std.specs.Prelude.{◌≡◌, IfOk, option_map};
ghost use Rattle.cc_parse_files.specs.Parts as parts;
ghost use Rattle.cc_grammar.specs.Names as typedefs;
ghost use Rattle.cc_grammar.specs.Reading as spec;
ghost use Rattle.cc_tree.specs.Views.{view, view_stmt, view_start};
ghost use Rattle.cc_parse_tokens.specs.Gives.{Gives};
ghost use Rattle.cc_parse_files.specs.Nests.{Nests};
ghost use Rattle.cc_grammar.specs.Names.{Names};

use crate::declaration::declaration;
use crate::statement::{Statements, unboxed};
use cc_base::Spot;
use cc_lex::{Keyword, Punct};
use cc_parse_expr::expr;
use cc_parse_tokens::{Cursor, Fault, TypedefNames, levels};
use cc_tree::{Block, Expr, ForStart, Stmt};
use sqlite_items::Boxed;
use std::alloc::Global;

impl<
    F: Fn(Global, &mut Cursor<'_>, &mut TypedefNames, u32) -> Result<Stmt<Spot>, Fault>,
    G: Fn(Global, &mut Cursor<'_>, &mut TypedefNames, u32) -> Result<Block<Spot>, Fault>,
> Statements<F, G> {
    /// `while`.
    pub fn while_statement(
        &self,
        tokens: &mut Cursor<'_>,
        names: &mut TypedefNames,
        spot: Spot,
    ) -> Result<Stmt<Spot>, Fault>
        requires nests { Nests self.now F.pre F.post G.pre G.post }
        ensures gives { Gives view_stmt (parts.while_at self.now.depth names.old spot tokens.old) result tokens.new }
        ensures after { IfOk result (λ s. names.new ≡ typedefs.after_stmt (view_stmt s) names.old) }
    {
        tokens.skip();
        let test = self.condition(tokens, names)?;
        let body = self.boxed(tokens, names)?;
        Ok(Stmt::While(spot, test.into_inner(), body))
    }

    /// `do`.
    pub fn do_statement(
        &self,
        tokens: &mut Cursor<'_>,
        names: &mut TypedefNames,
        spot: Spot,
    ) -> Result<Stmt<Spot>, Fault>
        requires nests { Nests self.now F.pre F.post G.pre G.post }
        ensures gives { Gives view_stmt (parts.do_at self.now.depth names.old spot tokens.old) result tokens.new }
        ensures after { IfOk result (λ s. names.new ≡ typedefs.after_stmt (view_stmt s) names.old) }
    {
        tokens.skip();
        let body = self.boxed(tokens, names)?;
        self.do_behind(tokens, names, spot, body)
    }

    /// `do` behind its statement.
    pub fn do_behind(
        &self,
        tokens: &mut Cursor<'_>,
        names: &TypedefNames,
        spot: Spot,
        body: Boxed<Stmt<Spot>>,
    ) -> Result<Stmt<Spot>, Fault>
        ensures gives { Gives view_stmt (parts.do_behind self.now.depth names.now spot (view_stmt body) tokens.old) result tokens.new }
        ensures same { IfOk result (λ s. (before : Names) → typedefs.after_stmt (view_stmt s) before ≡ typedefs.after_stmt (view_stmt body) before) }
    {
        tokens.take_keyword(Keyword::While)?;
        let test = self.condition(tokens, names)?;
        tokens.take(Punct::Semicolon)?;
        Ok(Stmt::Do(spot, body, test.into_inner()))
    }

    /// `for`.
    pub fn for_statement(
        &self,
        tokens: &mut Cursor<'_>,
        names: &mut TypedefNames,
        spot: Spot,
    ) -> Result<Stmt<Spot>, Fault>
        requires nests { Nests self.now F.pre F.post G.pre G.post }
        ensures gives { Gives view_stmt (parts.for_at self.now.depth names.old spot tokens.old) result tokens.new }
        ensures after { IfOk result (λ s. names.new ≡ typedefs.after_stmt (view_stmt s) names.old) }
    {
        tokens.skip();
        tokens.take(Punct::LeftParen)?;
        let start = self.start_clause(tokens, names)?;
        self.for_behind(tokens, names, spot, start)
    }

    /// The first clause of a `for`, with its semicolon.
    pub fn start_clause(
        &self,
        tokens: &mut Cursor<'_>,
        names: &mut TypedefNames,
    ) -> Result<Boxed<ForStart<Spot>>, Fault>
        ensures gives { Gives view_start (spec.start_clause (spec.stmt self.now.depth) self.now.depth names.old tokens.old) result tokens.new }
        ensures after { IfOk result (λ s. names.new ≡ typedefs.after_start (view_start s) names.old) }
    {
        if tokens.starts_spec(names) {
            return self.start_declaration(tokens, names);
        }
        if tokens.next_is(Punct::Semicolon) {
            tokens.skip();
            return Ok(Boxed::new(self.alloc, ForStart::Empty)?);
        }
        let first = expr(self.alloc, tokens, names, self.depth, levels::COMMA)?;
        tokens.take(Punct::Semicolon)?;
        Ok(Boxed::new(self.alloc, ForStart::Expr(first.into_inner()))?)
    }

    /// A declaration in a `for`, which counts.
    pub fn start_declaration(
        &self,
        tokens: &mut Cursor<'_>,
        names: &mut TypedefNames,
    ) -> Result<Boxed<ForStart<Spot>>, Fault>
        ensures gives { Gives view_start (parts.start_declares_at self.now.depth names.old tokens.old) result tokens.new }
        ensures after { IfOk result (λ s. names.new ≡ typedefs.after_start (view_start s) names.old) }
    {
        let Some(inside) = self.depth.checked_sub(1) else {
            tokens.mark();
            return Err(Fault::Refused);
        };
        let found = declaration(self.alloc, tokens, names, inside)?;
        Ok(Boxed::new(self.alloc, ForStart::Decl(found))?)
    }

    /// `for` behind its first clause.
    pub fn for_behind(
        &self,
        tokens: &mut Cursor<'_>,
        names: &mut TypedefNames,
        spot: Spot,
        start: Boxed<ForStart<Spot>>,
    ) -> Result<Stmt<Spot>, Fault>
        requires nests { Nests self.now F.pre F.post G.pre G.post }
        ensures gives { Gives view_stmt (parts.for_test self.now.depth names.old spot (view_start start) tokens.old) result tokens.new }
        ensures after { IfOk result (λ s. (before : Names) → names.old ≡ typedefs.after_start (view_start start) before → names.new ≡ typedefs.after_stmt (view_stmt s) before) }
    {
        let test = self.ended_clause(tokens, names, Punct::Semicolon)?;
        self.for_each(tokens, names, spot, start, test)
    }

    /// `for` behind its second clause.
    pub fn for_each(
        &self,
        tokens: &mut Cursor<'_>,
        names: &mut TypedefNames,
        spot: Spot,
        start: Boxed<ForStart<Spot>>,
        test: Option<Boxed<Expr<Spot>>>,
    ) -> Result<Stmt<Spot>, Fault>
        requires nests { Nests self.now F.pre F.post G.pre G.post }
        ensures gives { Gives view_stmt (parts.for_each self.now.depth names.old spot (view_start start) (option_map view test) tokens.old) result tokens.new }
        ensures after { IfOk result (λ s. (before : Names) → names.old ≡ typedefs.after_start (view_start start) before → names.new ≡ typedefs.after_stmt (view_stmt s) before) }
    {
        let each = self.ended_clause(tokens, names, Punct::RightParen)?;
        self.for_body(tokens, names, spot, start, test, each)
    }

    /// The statement of a `for`.
    pub fn for_body(
        &self,
        tokens: &mut Cursor<'_>,
        names: &mut TypedefNames,
        spot: Spot,
        start: Boxed<ForStart<Spot>>,
        test: Option<Boxed<Expr<Spot>>>,
        each: Option<Boxed<Expr<Spot>>>,
    ) -> Result<Stmt<Spot>, Fault>
        requires nests { Nests self.now F.pre F.post G.pre G.post }
        ensures gives { Gives view_stmt (parts.for_body self.now.depth names.old spot (view_start start) (option_map view test) (option_map view each) tokens.old) result tokens.new }
        ensures after { IfOk result (λ s. (before : Names) → names.old ≡ typedefs.after_start (view_start start) before → names.new ≡ typedefs.after_stmt (view_stmt s) before) }
    {
        let body = self.boxed(tokens, names)?;
        Ok(Stmt::For(spot, start.into_inner(), unboxed(test), unboxed(each), body))
    }
}
