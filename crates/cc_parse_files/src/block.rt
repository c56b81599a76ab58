// Blocks, and what stands in them (C17 6.8.1, 6.8.2).
ghost use Rattle.std.specs.Prelude.{◌≡◌, IfOk, map};
ghost use Rattle.cc_parse_files.specs.Parts as parts;
ghost use Rattle.cc_grammar.specs.Names as typedefs;
ghost use Rattle.cc_grammar.specs.Reading as spec;
ghost use Rattle.cc_tree.specs.Views.{view_stmt, view_block, view_item, items_of};
ghost use Rattle.cc_parse_tokens.specs.Gives.{Gives};
ghost use Rattle.cc_parse_files.specs.Nests.{Nests};

use crate::declaration::declaration;
use crate::statement::Statements;
use cc_base::Spot;
use cc_lex::Punct;
use cc_parse_expr::expr;
use cc_parse_tokens::{Cursor, Fault, StmtStart, TypedefNames, levels};
use cc_tree::{Block, Item, Stmt};
use sqlite_items::Items;
use std::alloc::Global;

impl<
    F: Fn(Global, &mut Cursor<'_>, &mut TypedefNames, u32) -> Result<Stmt<Spot>, Fault>,
    G: Fn(Global, &mut Cursor<'_>, &mut TypedefNames, u32) -> Result<Block<Spot>, Fault>,
> Statements<F, G> {
    /// A block, as a statement.
    pub fn compound(
        &self,
        tokens: &mut Cursor<'_>,
        names: &mut TypedefNames,
        spot: Spot,
    ) -> Result<Stmt<Spot>, Fault>
        requires nests { Nests self.now F.pre F.post G.pre G.post }
        ensures gives { Gives view_stmt (parts.block_at self.now.depth names.old spot tokens.old) result tokens.new }
        ensures after { IfOk result (λ s. names.new ≡ typedefs.after_stmt (view_stmt s) names.old) }
    {
        tokens.skip();
        let block = self.block(tokens, names, spot)?;
        Ok(Stmt::Block(block))
    }

    /// A block behind its brace.
    pub fn block(
        &self,
        tokens: &mut Cursor<'_>,
        names: &mut TypedefNames,
        spot: Spot,
    ) -> Result<Block<Spot>, Fault>
        requires nests { Nests self.now F.pre F.post G.pre G.post }
        ensures gives { Gives view_block (parts.block_behind self.now.depth names.old spot tokens.old) result tokens.new }
        ensures after { IfOk result (λ b. names.new ≡ typedefs.after_block (view_block b) names.old) }
    {
        let items = self.items(tokens, names)?;
        Ok(Block { note: spot, items })
    }

    /// What stands in a block, up to the brace that closes it.
    pub fn items(
        &self,
        tokens: &mut Cursor<'_>,
        names: &mut TypedefNames,
    ) -> Result<Items<Item<Spot>>, Fault>
        requires nests { Nests self.now F.pre F.post G.pre G.post }
        ensures gives { Gives (map view_item) (parts.items_in self.now.depth names.old tokens.old) result tokens.new }
        ensures after { IfOk result (λ is. names.new ≡ typedefs.after_items (items_of is) names.old) }
    {
        let mut found = Items::new(self.alloc);
        for _round in 0..tokens.len() + 1 {
            if tokens.next_is(Punct::RightBrace) {
                tokens.skip();
                return Ok(found);
            }
            let item = self.item(tokens, names)?;
            found.push(item)?;
        }
        Err(Fault::Refused)
    }

    /// What stands in a block (C17 6.8.2).
    pub fn item(
        &self,
        tokens: &mut Cursor<'_>,
        names: &mut TypedefNames,
    ) -> Result<Item<Spot>, Fault>
        requires nests { Nests self.now F.pre F.post G.pre G.post }
        ensures gives { Gives view_item (spec.item (spec.stmt self.now.depth) self.now.depth names.old tokens.old) result tokens.new }
        ensures after { IfOk result (λ i. names.new ≡ typedefs.after_item (view_item i) names.old) }
    {
        if tokens.starts_spec(names) {
            self.declares(tokens, names)
        } else {
            self.labelled(tokens, names)
        }
    }

    /// A declaration in a block, which counts.
    pub fn declares(
        &self,
        tokens: &mut Cursor<'_>,
        names: &mut TypedefNames,
    ) -> Result<Item<Spot>, Fault>
        ensures gives { Gives view_item (parts.declares_at self.now.depth names.old tokens.old) result tokens.new }
        ensures after { IfOk result (λ i. names.new ≡ typedefs.after_item (view_item i) names.old) }
    {
        let Some(inside) = self.depth.checked_sub(1) else {
            tokens.mark();
            return Err(Fault::Refused);
        };
        let found = declaration(self.alloc, tokens, names, inside)?;
        Ok(Item::Decl(found))
    }

    /// A label or a statement in a block.
    pub fn labelled(
        &self,
        tokens: &mut Cursor<'_>,
        names: &mut TypedefNames,
    ) -> Result<Item<Spot>, Fault>
        requires nests { Nests self.now F.pre F.post G.pre G.post }
        ensures gives { Gives view_item (parts.labelled_at self.now.depth names.old tokens.old) result tokens.new }
        ensures after { IfOk result (λ i. names.new ≡ typedefs.after_item (view_item i) names.old) }
    {
        let spot = tokens.spot();
        match tokens.stmt_start() {
            StmtStart::Case => self.case_label(tokens, names, spot),
            StmtStart::Default => self.default_label(tokens, names, spot),
            _ => self.does(tokens, names),
        }
    }

    /// `case` with its constant and its colon, which counts.
    pub fn case_label(
        &self,
        tokens: &mut Cursor<'_>,
        names: &mut TypedefNames,
        spot: Spot,
    ) -> Result<Item<Spot>, Fault>
        ensures gives { Gives view_item (parts.case_at self.now.depth names.old spot tokens.old) result tokens.new }
        ensures after { IfOk result (λ i. names.new ≡ typedefs.after_item (view_item i) names.old) }
    {
        let Some(inside) = self.depth.checked_sub(1) else {
            tokens.mark();
            return Err(Fault::Refused);
        };
        tokens.skip();
        let value = expr(self.alloc, tokens, names, inside, levels::CONDITIONAL)?;
        tokens.take(Punct::Colon)?;
        Ok(Item::Case(spot, value.into_inner()))
    }

    /// `default` with its colon, which counts.
    pub fn default_label(
        &self,
        tokens: &mut Cursor<'_>,
        names: &mut TypedefNames,
        spot: Spot,
    ) -> Result<Item<Spot>, Fault>
        ensures gives { Gives view_item (parts.default_at self.now.depth names.old spot tokens.old) result tokens.new }
        ensures after { IfOk result (λ i. names.new ≡ typedefs.after_item (view_item i) names.old) }
    {
        let Some(_) = self.depth.checked_sub(1) else {
            tokens.mark();
            return Err(Fault::Refused);
        };
        tokens.skip();
        tokens.take(Punct::Colon)?;
        Ok(Item::Default(spot))
    }

    /// A statement in a block.
    pub fn does(
        &self,
        tokens: &mut Cursor<'_>,
        names: &mut TypedefNames,
    ) -> Result<Item<Spot>, Fault>
        requires nests { Nests self.now F.pre F.post G.pre G.post }
        ensures gives { Gives view_item (parts.does_at self.now.depth names.old tokens.old) result tokens.new }
        ensures after { IfOk result (λ i. names.new ≡ typedefs.after_item (view_item i) names.old) }
    {
        let found = self.inside(tokens, names)?;
        Ok(Item::Stmt(found))
    }
}
