// Statements (C17 6.8), over the reader of the statements inside.
ghost use Rattle.std.specs.Prelude.{◌≡◌, IfOk, option_map};
ghost use Rattle.cc_parse_files.specs.Parts as parts;
ghost use Rattle.cc_grammar.specs.Names as typedefs;
ghost use Rattle.cc_grammar.specs.Reading as spec;
ghost use Rattle.cc_tree.specs.Views.{view, view_stmt, view_block};
ghost use Rattle.cc_parse_tokens.specs.Gives.{Gives};
ghost use Rattle.cc_parse_files.specs.Nests.{Nests};
ghost use Rattle.cc_grammar.specs.Classes as grammar;

use crate::begin::begins_statement;
use cc_base::Spot;
use cc_lex::Punct;
use cc_parse_expr::expr;
use cc_parse_tokens::{Cursor, Fault, StmtStart, TypedefNames, levels};
use cc_tree::{Block, Expr, Stmt};
use sqlite_items::Boxed;
use std::alloc::Global;

/// The rules of statements, where statements and blocks inside are no deeper than `depth`, over their readers.
#[derive(Clone, Copy)]
pub struct Statements<F, G> {
    pub alloc: Global,
    pub depth: u32,
    pub read: F,
    pub read_block: G,
}

impl<
    F: Fn(Global, &mut Cursor<'_>, &mut TypedefNames, u32) -> Result<Stmt<Spot>, Fault>,
    G: Fn(Global, &mut Cursor<'_>, &mut TypedefNames, u32) -> Result<Block<Spot>, Fault>,
> Statements<F, G> {
    /// A statement inside.
    pub fn inside(
        &self,
        tokens: &mut Cursor<'_>,
        names: &mut TypedefNames,
    ) -> Result<Stmt<Spot>, Fault>
        requires nests { Nests self.now F.pre F.post G.pre G.post }
        ensures gives { Gives view_stmt (spec.stmt self.now.depth names.old tokens.old) result tokens.new }
        ensures after { IfOk result (λ s. names.new ≡ typedefs.after_stmt (view_stmt s) names.old) }
    {
        (self.read)(self.alloc, tokens, names, self.depth)
    }

    /// A condition in parentheses.
    pub fn condition(
        &self,
        tokens: &mut Cursor<'_>,
        names: &TypedefNames,
    ) -> Result<Boxed<Expr<Spot>>, Fault>
        ensures { Gives view (spec.condition (spec.stmt self.now.depth) self.now.depth names.now tokens.old) result tokens.new }
    {
        tokens.take(Punct::LeftParen)?;
        let test = expr(self.alloc, tokens, names, self.depth, levels::COMMA)?;
        tokens.take(Punct::RightParen)?;
        Ok(test)
    }

    /// A clause of a `for` or an expression to return, up to where the punctuator stands; it may be missing.
    pub fn clause(
        &self,
        tokens: &mut Cursor<'_>,
        names: &TypedefNames,
        end: Punct,
    ) -> Result<Option<Boxed<Expr<Spot>>>, Fault>
        ensures { Gives (option_map view) (spec.clause_until (spec.stmt self.now.depth) self.now.depth names.now (grammar.next_is end) tokens.old) result tokens.new }
    {
        if tokens.next_is(end) {
            return Ok(None);
        }
        let found = expr(self.alloc, tokens, names, self.depth, levels::COMMA)?;
        Ok(Some(found))
    }

    /// A clause with the punctuator behind it, which is taken too.
    pub fn ended_clause(
        &self,
        tokens: &mut Cursor<'_>,
        names: &TypedefNames,
        end: Punct,
    ) -> Result<Option<Boxed<Expr<Spot>>>, Fault>
        ensures { Gives (option_map view) (parts.ended_clause self.now.depth names.now end tokens.old) result tokens.new }
    {
        let found = self.clause(tokens, names, end)?;
        tokens.take(end)?;
        Ok(found)
    }

    /// A statement whose statements inside are no deeper than `depth` (C17 6.8).
    #[tactic(auto, using(crate::proofs::FirstTokens::first_is))]
    pub fn statement(
        &self,
        tokens: &mut Cursor<'_>,
        names: &mut TypedefNames,
    ) -> Result<Stmt<Spot>, Fault>
        requires nests { Nests self.now F.pre F.post G.pre G.post }
        ensures gives { Gives view_stmt (parts.stmt_at self.now.depth names.old tokens.old) result tokens.new }
        ensures after { IfOk result (λ s. names.new ≡ typedefs.after_stmt (view_stmt s) names.old) }
    {
        let spot = tokens.spot();
        let start = tokens.stmt_start();
        self.first(tokens, names, spot, start)
    }

    /// A statement by the class of its first token.
    pub fn first(
        &self,
        tokens: &mut Cursor<'_>,
        names: &mut TypedefNames,
        spot: Spot,
        start: StmtStart,
    ) -> Result<Stmt<Spot>, Fault>
        requires nests { Nests self.now F.pre F.post G.pre G.post }
        ensures gives { Gives view_stmt (parts.first_at self.now.depth start names.old spot tokens.old) result tokens.new }
        ensures after { IfOk result (λ s. names.new ≡ typedefs.after_stmt (view_stmt s) names.old) }
    {
        match start {
            StmtStart::Block => self.compound(tokens, names, spot),
            StmtStart::Empty => empty_statement(tokens, names, spot),
            StmtStart::If => self.if_statement(tokens, names, spot),
            StmtStart::Switch => self.switch_statement(tokens, names, spot),
            StmtStart::While => self.while_statement(tokens, names, spot),
            StmtStart::Do => self.do_statement(tokens, names, spot),
            StmtStart::For => self.for_statement(tokens, names, spot),
            StmtStart::Break => break_statement(tokens, names, spot),
            StmtStart::Continue => continue_statement(tokens, names, spot),
            StmtStart::Return => self.return_statement(tokens, names, spot),
            StmtStart::Case | StmtStart::Default => Err(Fault::Refused),
            StmtStart::Other => self.plain_statement(tokens, names, spot),
        }
    }

    /// `return`.
    pub fn return_statement(
        &self,
        tokens: &mut Cursor<'_>,
        names: &mut TypedefNames,
        spot: Spot,
    ) -> Result<Stmt<Spot>, Fault>
        ensures gives { Gives view_stmt (parts.return_at self.now.depth names.old spot tokens.old) result tokens.new }
        ensures after { IfOk result (λ s. names.new ≡ typedefs.after_stmt (view_stmt s) names.old) }
    {
        tokens.skip();
        let value = self.ended_clause(tokens, names, Punct::Semicolon)?;
        Ok(Stmt::Return(spot, unboxed(value)))
    }

    /// An expression with its semicolon.
    pub fn plain_statement(
        &self,
        tokens: &mut Cursor<'_>,
        names: &mut TypedefNames,
        spot: Spot,
    ) -> Result<Stmt<Spot>, Fault>
        ensures gives { Gives view_stmt (parts.plain_at self.now.depth names.old spot tokens.old) result tokens.new }
        ensures after { IfOk result (λ s. names.new ≡ typedefs.after_stmt (view_stmt s) names.old) }
    {
        let value = expr(self.alloc, tokens, names, self.depth, levels::COMMA)?;
        tokens.take(Punct::Semicolon)?;
        Ok(Stmt::Plain(spot, value.into_inner()))
    }
}

/// What a clause holds, out of its box.
pub fn unboxed(clause: Option<Boxed<Expr<Spot>>>) -> Option<Expr<Spot>>
    ensures { result ≡ clause }
{
    match clause {
        None => None,
        Some(e) => Some(e.into_inner()),
    }
}

/// `;` alone.
fn empty_statement(
    tokens: &mut Cursor<'_>,
    names: &mut TypedefNames,
    spot: Spot,
) -> Result<Stmt<Spot>, Fault>
    ensures gives { Gives view_stmt (parts.empty_at spot tokens.old) result tokens.new }
    ensures after { IfOk result (λ s. names.new ≡ typedefs.after_stmt (view_stmt s) names.old) }
{
    tokens.skip();
    Ok(Stmt::Empty(spot))
}

/// `break`.
fn break_statement(
    tokens: &mut Cursor<'_>,
    names: &mut TypedefNames,
    spot: Spot,
) -> Result<Stmt<Spot>, Fault>
    ensures gives { Gives view_stmt (parts.break_at spot tokens.old) result tokens.new }
    ensures after { IfOk result (λ s. names.new ≡ typedefs.after_stmt (view_stmt s) names.old) }
{
    tokens.skip();
    tokens.take(Punct::Semicolon)?;
    Ok(Stmt::Break(spot))
}

/// `continue`.
fn continue_statement(
    tokens: &mut Cursor<'_>,
    names: &mut TypedefNames,
    spot: Spot,
) -> Result<Stmt<Spot>, Fault>
    ensures gives { Gives view_stmt (parts.continue_at spot tokens.old) result tokens.new }
    ensures after { IfOk result (λ s. names.new ≡ typedefs.after_stmt (view_stmt s) names.old) }
{
    tokens.skip();
    tokens.take(Punct::Semicolon)?;
    Ok(Stmt::Continue(spot))
}

/// A statement no deeper than `depth` (C17 6.8). The typedef names that stand behind it are taken down.
#[cycle(statements)]
#[tactic(auto, using(crate::proofs::Opened::stmt_is, crate::proofs::Opened::no_stmt))]
pub fn stmt(
    alloc: Global,
    tokens: &mut Cursor<'_>,
    names: &mut TypedefNames,
    depth: u32,
) -> Result<Stmt<Spot>, Fault>
    ensures gives { Gives view_stmt (spec.stmt depth names.old tokens.old) result tokens.new }
    ensures after { IfOk result (λ s. names.new ≡ typedefs.after_stmt (view_stmt s) names.old) }
{
    let Some(inside) = depth.checked_sub(1) else {
        if begins_statement(tokens, names) {
            tokens.mark();
        }
        return Err(Fault::Refused);
    };
    Statements {
        alloc,
        depth: inside,
        read: stmt,
        read_block: body,
    }
    .statement(tokens, names)
}

/// A block no deeper than `depth`: the body of a function or of a `switch` (C17 6.8.4, 6.9.1).
#[cycle(statements)]
#[tactic(auto, using(crate::proofs::Opened::body_is, crate::proofs::Opened::no_body, crate::proofs::Opened::no_brace))]
pub fn body(
    alloc: Global,
    tokens: &mut Cursor<'_>,
    names: &mut TypedefNames,
    depth: u32,
) -> Result<Block<Spot>, Fault>
    ensures gives { Gives view_block (spec.body (spec.stmt depth) depth names.old tokens.old) result tokens.new }
    ensures after { IfOk result (λ b. names.new ≡ typedefs.after_block (view_block b) names.old) }
{
    if !tokens.next_is(Punct::LeftBrace) {
        return Err(Fault::Refused);
    }
    let Some(inside) = depth.checked_sub(1) else {
        tokens.mark();
        return Err(Fault::Refused);
    };
    let spot = tokens.spot();
    tokens.skip();
    Statements {
        alloc,
        depth: inside,
        read: stmt,
        read_block: body,
    }
    .block(tokens, names, spot)
}
