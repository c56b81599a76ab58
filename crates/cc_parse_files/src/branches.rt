// `if` and `switch` (C17 6.8.4).
ghost use Rattle.std.specs.Prelude.{◌≡◌, IfOk};
ghost use Rattle.cc_parse_files.specs.Parts as parts;
ghost use Rattle.cc_grammar.specs.Names as typedefs;
ghost use Rattle.cc_grammar.specs.Reading as spec;
ghost use Rattle.cc_tree.specs.Views.{view, view_stmt, view_block};
ghost use Rattle.cc_parse_tokens.specs.Gives.{Gives};
ghost use Rattle.cc_parse_files.specs.Nests.{Nests};
ghost use Rattle.cc_grammar.specs.Names.{Names};

use crate::statement::Statements;
use cc_base::Spot;
use cc_lex::{Keyword, Punct};
use cc_parse_tokens::{Cursor, Fault, TypedefNames};
use cc_tree::{Block, Expr, Stmt};
use sqlite_items::Boxed;
use std::alloc::Global;

impl<
    F: Fn(Global, &mut Cursor<'_>, &mut TypedefNames, u32) -> Result<Stmt<Spot>, Fault>,
    G: Fn(Global, &mut Cursor<'_>, &mut TypedefNames, u32) -> Result<Block<Spot>, Fault>,
> Statements<F, G> {
    /// A statement inside, in a box.
    pub fn boxed(
        &self,
        tokens: &mut Cursor<'_>,
        names: &mut TypedefNames,
    ) -> Result<Boxed<Stmt<Spot>>, Fault>
        requires nests { Nests self.now F.pre F.post G.pre G.post }
        ensures gives { Gives view_stmt (spec.stmt self.now.depth names.old tokens.old) result tokens.new }
        ensures after { IfOk result (λ s. names.new ≡ typedefs.after_stmt (view_stmt s) names.old) }
    {
        let found = self.inside(tokens, names)?;
        Ok(Boxed::new(self.alloc, found)?)
    }

    /// `if`.
    pub fn if_statement(
        &self,
        tokens: &mut Cursor<'_>,
        names: &mut TypedefNames,
        spot: Spot,
    ) -> Result<Stmt<Spot>, Fault>
        requires nests { Nests self.now F.pre F.post G.pre G.post }
        ensures gives { Gives view_stmt (parts.if_at self.now.depth names.old spot tokens.old) result tokens.new }
        ensures after { IfOk result (λ s. names.new ≡ typedefs.after_stmt (view_stmt s) names.old) }
    {
        tokens.skip();
        let test = self.condition(tokens, names)?;
        self.branches(tokens, names, spot, test)
    }

    /// `if` behind its condition.
    pub fn branches(
        &self,
        tokens: &mut Cursor<'_>,
        names: &mut TypedefNames,
        spot: Spot,
        test: Boxed<Expr<Spot>>,
    ) -> Result<Stmt<Spot>, Fault>
        requires nests { Nests self.now F.pre F.post G.pre G.post }
        ensures gives { Gives view_stmt (parts.branches self.now.depth names.old spot (view test) tokens.old) result tokens.new }
        ensures after { IfOk result (λ s. names.new ≡ typedefs.after_stmt (view_stmt s) names.old) }
    {
        let yes = self.boxed(tokens, names)?;
        if tokens.next_is_keyword(Keyword::Else) {
            tokens.skip();
            self.with_else(tokens, names, spot, test, yes)
        } else {
            Ok(Stmt::If(spot, test.into_inner(), yes))
        }
    }

    /// `if` behind its word `else`.
    pub fn with_else(
        &self,
        tokens: &mut Cursor<'_>,
        names: &mut TypedefNames,
        spot: Spot,
        test: Boxed<Expr<Spot>>,
        yes: Boxed<Stmt<Spot>>,
    ) -> Result<Stmt<Spot>, Fault>
        requires nests { Nests self.now F.pre F.post G.pre G.post }
        ensures gives { Gives view_stmt (parts.else_at self.now.depth names.old spot (view test) (view_stmt yes) tokens.old) result tokens.new }
        ensures after { IfOk result (λ s. (before : Names) → names.old ≡ typedefs.after_stmt (view_stmt yes) before → names.new ≡ typedefs.after_stmt (view_stmt s) before) }
    {
        let no = self.boxed(tokens, names)?;
        Ok(Stmt::IfElse(spot, test.into_inner(), yes, no))
    }

    /// `switch`.
    pub fn switch_statement(
        &self,
        tokens: &mut Cursor<'_>,
        names: &mut TypedefNames,
        spot: Spot,
    ) -> Result<Stmt<Spot>, Fault>
        requires nests { Nests self.now F.pre F.post G.pre G.post }
        ensures gives { Gives view_stmt (parts.switch_at self.now.depth names.old spot tokens.old) result tokens.new }
        ensures after { IfOk result (λ s. names.new ≡ typedefs.after_stmt (view_stmt s) names.old) }
    {
        tokens.skip();
        let test = self.condition(tokens, names)?;
        let body = self.body(tokens, names)?;
        Ok(Stmt::Switch(spot, test.into_inner(), body))
    }

    /// A block inside.
    pub fn body(
        &self,
        tokens: &mut Cursor<'_>,
        names: &mut TypedefNames,
    ) -> Result<Block<Spot>, Fault>
        requires nests { Nests self.now F.pre F.post G.pre G.post }
        ensures gives { Gives view_block (spec.body (spec.stmt self.now.depth) self.now.depth names.old tokens.old) result tokens.new }
        ensures after { IfOk result (λ b. names.new ≡ typedefs.after_block (view_block b) names.old) }
    {
        (self.read_block)(self.alloc, tokens, names, self.depth)
    }
}
