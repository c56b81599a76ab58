// Statements and blocks.
ghost use Rattle.std.specs.Prelude.{◌≡◌, OnOk, option_map};
ghost use Rattle.cc_tree.specs.Views.{view, view_start, view_stmt, view_block, view_item, items_of};
ghost use Rattle.cc_arena_fill.specs.Filling as spec;

use crate::declaration::fill_declaration;
use crate::expr::{fill_expr, put};
use crate::lists::list_items;
use crate::numbers::{block_number, clause_number, number, start_number, stmt_number};
use cc_arena::{Arena, Node};
use cc_base::Memory;
use cc_tree::{Block, Expr, ForStart, Item, Stmt};
use cc_tree_notes::Counted;

fn fill_clause(arena: &mut Arena, up: u32, e: &Option<Expr<Counted>>) -> Result<(), Memory>
    ensures { OnOk result (arena.new ≡ spec.put_clause (option_map view e.now) up arena.old) }
{
    match e {
        None => Ok(()),
        Some(e) => fill_expr(arena, up, e),
    }
}

fn fill_start(arena: &mut Arena, up: u32, start: &ForStart<Counted>) -> Result<(), Memory>
    ensures { OnOk result (arena.new ≡ spec.put_start (view_start start.now) up arena.old) }
{
    match start {
        ForStart::Decl(d) => fill_declaration(arena, up, d),
        ForStart::Expr(e) => fill_expr(arena, up, e),
        ForStart::Empty => Ok(()),
    }
}

#[cycle(fill)]
fn fill_stmt(arena: &mut Arena, up: u32, s: &Stmt<Counted>) -> Result<(), Memory>
    ensures { OnOk result (arena.new ≡ spec.put_stmt (view_stmt s.now) up arena.old) }
{
    match s {
        Stmt::Block(b) => fill_block(arena, up, b),
        Stmt::Plain(note, e) => {
            put(arena, up, note, Node::Plain(number(e)))?;
            fill_expr(arena, note.number, e)
        }
        Stmt::Empty(note) => put(arena, up, note, Node::Empty),
        Stmt::If(note, c, s) => {
            put(arena, up, note, Node::If(number(c), stmt_number(s.get())))?;
            fill_expr(arena, note.number, c)?;
            fill_stmt(arena, note.number, s.get())
        }
        Stmt::IfElse(note, c, s, o) => {
            let node = Node::IfElse(number(c), stmt_number(s.get()), stmt_number(o.get()));
            put(arena, up, note, node)?;
            fill_expr(arena, note.number, c)?;
            fill_stmt(arena, note.number, s.get())?;
            fill_stmt(arena, note.number, o.get())
        }
        Stmt::Switch(note, e, b) => {
            put(arena, up, note, Node::Switch(number(e), block_number(b)))?;
            fill_expr(arena, note.number, e)?;
            fill_block(arena, note.number, b)
        }
        Stmt::While(note, c, s) => {
            put(
                arena,
                up,
                note,
                Node::While(number(c), stmt_number(s.get())),
            )?;
            fill_expr(arena, note.number, c)?;
            fill_stmt(arena, note.number, s.get())
        }
        Stmt::Do(note, s, c) => {
            put(arena, up, note, Node::Do(stmt_number(s.get()), number(c)))?;
            fill_stmt(arena, note.number, s.get())?;
            fill_expr(arena, note.number, c)
        }
        Stmt::For(note, start, test, each, s) => {
            let first = start_number(start);
            let second = clause_number(test);
            let third = clause_number(each);
            put(
                arena,
                up,
                note,
                Node::For(first, second, third, stmt_number(s.get())),
            )?;
            fill_start(arena, note.number, start)?;
            fill_clause(arena, note.number, test)?;
            fill_clause(arena, note.number, each)?;
            fill_stmt(arena, note.number, s.get())
        }
        Stmt::Break(note) => put(arena, up, note, Node::Break),
        Stmt::Continue(note) => put(arena, up, note, Node::Continue),
        Stmt::Return(note, e) => {
            put(arena, up, note, Node::Return(clause_number(e)))?;
            fill_clause(arena, note.number, e)
        }
    }
}

#[cycle(fill)]
pub(crate) fn fill_block(arena: &mut Arena, up: u32, b: &Block<Counted>) -> Result<(), Memory>
    ensures { OnOk result (arena.new ≡ spec.put_block (view_block b.now) up arena.old) }
{
    let span = list_items(arena, b.items.as_slice())?;
    put(arena, up, &b.note, Node::Block(span))?;
    fill_items(arena, b.note.number, b.items.as_slice())
}

#[cycle(fill)]
fn fill_item(arena: &mut Arena, up: u32, i: &Item<Counted>) -> Result<(), Memory>
    ensures { OnOk result (arena.new ≡ spec.put_item (view_item i.now) up arena.old) }
{
    match i {
        Item::Decl(d) => fill_declaration(arena, up, d),
        Item::Case(note, e) => {
            put(arena, up, note, Node::Case(number(e)))?;
            fill_expr(arena, note.number, e)
        }
        Item::Default(note) => put(arena, up, note, Node::Default),
        Item::Stmt(s) => fill_stmt(arena, up, s),
    }
}

#[cycle(fill)]
fn fill_items(arena: &mut Arena, up: u32, is: &[Item<Counted>]) -> Result<(), Memory>
    ensures { OnOk result (arena.new ≡ spec.put_items (items_of is.now) up arena.old) }
{
    for i in is {
        fill_item(arena, up, i)?;
    }
    Ok(())
}
