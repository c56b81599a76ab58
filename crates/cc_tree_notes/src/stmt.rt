// Numbers for statements.
ghost use Rattle.std.specs.Prelude.{◌≡◌, ◌+◌, ◌<◌, ◌^◌, map, option_map, IfOk, OnOk};
ghost use Rattle.cc_tree.specs.Nodes as nodes;
ghost use Rattle.cc_tree.specs.Views.{view, view_start, view_stmt, view_block, view_item, items_of};
ghost use Rattle.cc_tree_notes.specs.Numbering as spec;

use crate::boxes::{boxed, unboxed};
use crate::declaration::number_declaration;
use crate::expr::{boxed_expr, number_expr};
use crate::note::Counted;
use cc_base::{Memory, Spot};
use cc_tree::{Block, Expr, ForStart, Item, Stmt};
use sqlite_items::{Boxed, Items};
use std::alloc::Global;

fn boxed_start(
    alloc: Global,
    start: &ForStart<Spot>,
    next: &mut u32,
) -> Result<Boxed<ForStart<Counted>>, Memory>
    requires { next.old + nodes.start_nodes (view_start start.now) < 2 ^ 32 }
    ensures tree { IfOk result (λ r. (view_start r, next.new) ≡ spec.numbered_start (view_start start.now) next.old) }
    ensures next { OnOk result (next.new ≡ next.old + nodes.start_nodes (view_start start.now)) }
{
    match start {
        ForStart::Decl(d) => {
            let d = number_declaration(alloc, d, next)?;
            boxed(alloc, ForStart::Decl(d))
        }
        ForStart::Expr(e) => {
            let e = number_expr(alloc, e, next)?;
            boxed(alloc, ForStart::Expr(e))
        }
        ForStart::Empty => boxed(alloc, ForStart::Empty),
    }
}

fn number_clause(
    alloc: Global,
    e: &Option<Expr<Spot>>,
    next: &mut u32,
) -> Result<Option<Boxed<Expr<Counted>>>, Memory>
    requires { next.old + nodes.clause_nodes (option_map view e.now) < 2 ^ 32 }
    ensures tree { IfOk result (λ r. (option_map view r, next.new) ≡ spec.numbered_clause (option_map view e.now) next.old) }
    ensures next { OnOk result (next.new ≡ next.old + nodes.clause_nodes (option_map view e.now)) }
{
    match e {
        None => Ok(None),
        Some(e) => Ok(Some(boxed_expr(alloc, e, next)?)),
    }
}

#[cycle(number)]
fn number_stmt(alloc: Global, s: &Stmt<Spot>, next: &mut u32) -> Result<Stmt<Counted>, Memory>
    requires { next.old + nodes.stmt_nodes (view_stmt s.now) < 2 ^ 32 }
    ensures tree { IfOk result (λ r. (view_stmt r, next.new) ≡ spec.numbered_stmt (view_stmt s.now) next.old) }
    ensures next { OnOk result (next.new ≡ next.old + nodes.stmt_nodes (view_stmt s.now)) }
{
    match s {
        Stmt::Block(b) => Ok(Stmt::Block(number_block(alloc, b, next)?)),
        Stmt::Plain(spot, e) => {
            let note = Counted::new(*spot, next);
            Ok(Stmt::Plain(note, number_expr(alloc, e, next)?))
        }
        Stmt::Empty(spot) => Ok(Stmt::Empty(Counted::new(*spot, next))),
        Stmt::If(spot, test, then) => {
            let note = Counted::new(*spot, next);
            let test = boxed_expr(alloc, test, next)?;
            let then = boxed_stmt(alloc, then.get(), next)?;
            Ok(Stmt::If(note, test.into_inner(), then))
        }
        Stmt::IfElse(spot, test, then, other) => {
            let note = Counted::new(*spot, next);
            let test = boxed_expr(alloc, test, next)?;
            let then = boxed_stmt(alloc, then.get(), next)?;
            let other = boxed_stmt(alloc, other.get(), next)?;
            Ok(Stmt::IfElse(note, test.into_inner(), then, other))
        }
        Stmt::Switch(spot, e, body) => {
            let note = Counted::new(*spot, next);
            let e = boxed_expr(alloc, e, next)?;
            let body = number_block(alloc, body, next)?;
            Ok(Stmt::Switch(note, e.into_inner(), body))
        }
        Stmt::While(spot, test, body) => {
            let note = Counted::new(*spot, next);
            let test = boxed_expr(alloc, test, next)?;
            let body = boxed_stmt(alloc, body.get(), next)?;
            Ok(Stmt::While(note, test.into_inner(), body))
        }
        Stmt::Do(spot, body, test) => {
            let note = Counted::new(*spot, next);
            let body = boxed_stmt(alloc, body.get(), next)?;
            let test = boxed_expr(alloc, test, next)?;
            Ok(Stmt::Do(note, body, test.into_inner()))
        }
        Stmt::For(spot, start, test, each, body) => {
            let note = Counted::new(*spot, next);
            let start = boxed_start(alloc, start, next)?;
            let test = number_clause(alloc, test, next)?;
            let each = number_clause(alloc, each, next)?;
            let body = boxed_stmt(alloc, body.get(), next)?;
            let start = start.into_inner();
            Ok(Stmt::For(note, start, unboxed(test), unboxed(each), body))
        }
        Stmt::Break(spot) => Ok(Stmt::Break(Counted::new(*spot, next))),
        Stmt::Continue(spot) => Ok(Stmt::Continue(Counted::new(*spot, next))),
        Stmt::Return(spot, e) => {
            let note = Counted::new(*spot, next);
            let e = number_clause(alloc, e, next)?;
            Ok(Stmt::Return(note, unboxed(e)))
        }
    }
}

#[cycle(number)]
fn boxed_stmt(alloc: Global, s: &Stmt<Spot>, next: &mut u32) -> Result<Boxed<Stmt<Counted>>, Memory>
    requires { next.old + nodes.stmt_nodes (view_stmt s.now) < 2 ^ 32 }
    ensures tree { IfOk result (λ r. (view_stmt r, next.new) ≡ spec.numbered_stmt (view_stmt s.now) next.old) }
    ensures next { OnOk result (next.new ≡ next.old + nodes.stmt_nodes (view_stmt s.now)) }
{
    let s = number_stmt(alloc, s, next)?;
    boxed(alloc, s)
}

#[cycle(number)]
pub(crate) fn number_block(
    alloc: Global,
    b: &Block<Spot>,
    next: &mut u32,
) -> Result<Block<Counted>, Memory>
    requires { next.old + nodes.block_nodes (view_block b.now) < 2 ^ 32 }
    ensures tree { IfOk result (λ r. (view_block r, next.new) ≡ spec.numbered_block (view_block b.now) next.old) }
    ensures next { OnOk result (next.new ≡ next.old + nodes.block_nodes (view_block b.now)) }
{
    let note = Counted::new(b.note, next);
    let items = number_items(alloc, b.items.as_slice(), next)?;
    Ok(Block { note, items })
}

#[cycle(number)]
fn number_item(alloc: Global, i: &Item<Spot>, next: &mut u32) -> Result<Item<Counted>, Memory>
    requires { next.old + nodes.item_nodes (view_item i.now) < 2 ^ 32 }
    ensures tree { IfOk result (λ r. (view_item r, next.new) ≡ spec.numbered_item (view_item i.now) next.old) }
    ensures next { OnOk result (next.new ≡ next.old + nodes.item_nodes (view_item i.now)) }
{
    match i {
        Item::Decl(d) => Ok(Item::Decl(number_declaration(alloc, d, next)?)),
        Item::Case(spot, e) => {
            let note = Counted::new(*spot, next);
            Ok(Item::Case(note, number_expr(alloc, e, next)?))
        }
        Item::Default(spot) => Ok(Item::Default(Counted::new(*spot, next))),
        Item::Stmt(s) => Ok(Item::Stmt(number_stmt(alloc, s, next)?)),
    }
}

#[cycle(number)]
fn number_items(
    alloc: Global,
    is: &[Item<Spot>],
    next: &mut u32,
) -> Result<Items<Item<Counted>>, Memory>
    requires { next.old + nodes.items_nodes (items_of is.now) < 2 ^ 32 }
    ensures tree { IfOk result (λ r. (map view_item r, next.new) ≡ spec.numbered_items (items_of is.now) next.old) }
    ensures next { OnOk result (next.new ≡ next.old + nodes.items_nodes (items_of is.now)) }
{
    let mut numbered = Items::new(alloc);
    for i in is {
        numbered.push(number_item(alloc, i, next)?)?;
    }
    Ok(numbered)
}
