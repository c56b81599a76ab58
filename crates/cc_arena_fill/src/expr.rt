// Expressions, type names, specifiers and declarators.
ghost use Rattle.std.specs.Prelude.{◌≡◌, OnOk};
ghost use Rattle.cc_tree.specs.Views.{view, view_type, view_spec, view_member, view_constant, view_declarator, exprs_of, types_of, specs_of, members_of, constants_of, declarators_of, option_of};
ghost use Rattle.cc_arena_fill.specs.Filling as spec;

use crate::lists::{
    list_bytes, list_constants, list_declarators, list_exprs, list_members, list_types,
};
use crate::numbers::{declarator_number, number, option_number, type_number};
use cc_arena::{Arena, Node};
use cc_base::Memory;
use cc_tree::{Constant, Declarator, Expr, Member, Spec, TypeName};
use cc_tree_notes::Counted;
use sqlite_items::Boxed;

// Puts a node at the end of the arena, a part of the node `up`.
pub(crate) fn put(arena: &mut Arena, up: u32, note: &Counted, node: Node) -> Result<(), Memory>
    ensures { OnOk result (arena.new ≡ spec.put_node up note.now node arena.old) }
{
    arena.push(up, note.spot, node)
}

#[cycle(fill)]
pub(crate) fn fill_expr(arena: &mut Arena, up: u32, e: &Expr<Counted>) -> Result<(), Memory>
    ensures { OnOk result (arena.new ≡ spec.put_expr (view e.now) up arena.old) }
{
    match e {
        Expr::Name(note, _) => put(arena, up, note, Node::Name),
        Expr::Int(note, value, kind) => put(arena, up, note, Node::Int(*value, *kind)),
        Expr::Char(note, value) => put(arena, up, note, Node::Char(*value)),
        Expr::Str(note, ss) => {
            let span = list_bytes(arena, ss.as_slice())?;
            put(arena, up, note, Node::Str(span))
        }
        Expr::Paren(note, e) => {
            put(arena, up, note, Node::Paren(number(e.get())))?;
            fill_expr(arena, note.number, e.get())
        }
        Expr::Unary(note, op, e) => {
            put(arena, up, note, Node::Unary(*op, number(e.get())))?;
            fill_expr(arena, note.number, e.get())
        }
        Expr::Binary(note, op, a, b) => {
            put(
                arena,
                up,
                note,
                Node::Binary(*op, number(a.get()), number(b.get())),
            )?;
            fill_expr(arena, note.number, a.get())?;
            fill_expr(arena, note.number, b.get())
        }
        Expr::Assign(note, op, a, b) => {
            put(
                arena,
                up,
                note,
                Node::Assign(*op, number(a.get()), number(b.get())),
            )?;
            fill_expr(arena, note.number, a.get())?;
            fill_expr(arena, note.number, b.get())
        }
        Expr::Step(note, op, side, e) => {
            put(arena, up, note, Node::Step(*op, *side, number(e.get())))?;
            fill_expr(arena, note.number, e.get())
        }
        Expr::Cond(note, c, a, b) => {
            put(
                arena,
                up,
                note,
                Node::Cond(number(c.get()), number(a.get()), number(b.get())),
            )?;
            fill_expr(arena, note.number, c.get())?;
            fill_expr(arena, note.number, a.get())?;
            fill_expr(arena, note.number, b.get())
        }
        Expr::Comma(note, a, b) => {
            put(
                arena,
                up,
                note,
                Node::Comma(number(a.get()), number(b.get())),
            )?;
            fill_expr(arena, note.number, a.get())?;
            fill_expr(arena, note.number, b.get())
        }
        Expr::Call(note, f, args) => {
            let span = list_exprs(arena, args.as_slice())?;
            put(arena, up, note, Node::Call(number(f.get()), span))?;
            fill_expr(arena, note.number, f.get())?;
            fill_exprs(arena, note.number, args.as_slice())
        }
        Expr::Member(note, e, _) => {
            put(arena, up, note, Node::Member(number(e.get())))?;
            fill_expr(arena, note.number, e.get())
        }
        Expr::Arrow(note, e, _) => {
            put(arena, up, note, Node::Arrow(number(e.get())))?;
            fill_expr(arena, note.number, e.get())
        }
        Expr::Index(note, a, i) => {
            put(
                arena,
                up,
                note,
                Node::Index(number(a.get()), number(i.get())),
            )?;
            fill_expr(arena, note.number, a.get())?;
            fill_expr(arena, note.number, i.get())
        }
        Expr::Cast(note, t, e) => {
            put(
                arena,
                up,
                note,
                Node::Cast(type_number(t.get()), number(e.get())),
            )?;
            fill_type(arena, note.number, t.get())?;
            fill_expr(arena, note.number, e.get())
        }
        Expr::SizeExpr(note, e) => {
            put(arena, up, note, Node::SizeExpr(number(e.get())))?;
            fill_expr(arena, note.number, e.get())
        }
        Expr::SizeType(note, t) => {
            put(arena, up, note, Node::SizeType(type_number(t.get())))?;
            fill_type(arena, note.number, t.get())
        }
    }
}

#[cycle(fill)]
fn fill_exprs(arena: &mut Arena, up: u32, es: &[Expr<Counted>]) -> Result<(), Memory>
    ensures { OnOk result (arena.new ≡ spec.put_exprs (exprs_of es.now) up arena.old) }
{
    for e in es {
        fill_expr(arena, up, e)?;
    }
    Ok(())
}

#[cycle(fill)]
fn fill_option(arena: &mut Arena, up: u32, e: &Option<Boxed<Expr<Counted>>>) -> Result<(), Memory>
    ensures { OnOk result (arena.new ≡ spec.put_option (option_of e.now) up arena.old) }
{
    match e {
        None => Ok(()),
        Some(e) => fill_expr(arena, up, e.get()),
    }
}

#[cycle(fill)]
fn fill_type(arena: &mut Arena, up: u32, t: &TypeName<Counted>) -> Result<(), Memory>
    ensures { OnOk result (arena.new ≡ spec.put_type (view_type t.now) up arena.old) }
{
    put(
        arena,
        up,
        &t.note,
        Node::TypeName(declarator_number(&t.declarator)),
    )?;
    fill_specs(arena, t.note.number, t.specs.as_slice())?;
    fill_declarator(arena, t.note.number, None, &t.declarator)
}

#[cycle(fill)]
fn fill_types(arena: &mut Arena, up: u32, ts: &[TypeName<Counted>]) -> Result<(), Memory>
    ensures { OnOk result (arena.new ≡ spec.put_types (types_of ts.now) up arena.old) }
{
    for t in ts {
        fill_type(arena, up, t)?;
    }
    Ok(())
}

#[cycle(fill)]
fn fill_spec(arena: &mut Arena, up: u32, s: &Spec<Counted>) -> Result<(), Memory>
    ensures { OnOk result (arena.new ≡ spec.put_spec (view_spec s.now) up arena.old) }
{
    match s {
        Spec::Word(note, word) => put(arena, up, note, Node::Word(*word)),
        Spec::Named(note, _) => put(arena, up, note, Node::Named),
        Spec::Struct(note, _, ms) => {
            let span = list_members(arena, ms.as_slice())?;
            put(arena, up, note, Node::Struct(span))?;
            fill_members(arena, note.number, ms.as_slice())
        }
        Spec::Enum(note, _, cs, _) => {
            let span = list_constants(arena, cs.as_slice())?;
            put(arena, up, note, Node::Enum(span))?;
            fill_constants(arena, note.number, cs.as_slice())
        }
    }
}

#[cycle(fill)]
pub(crate) fn fill_specs(arena: &mut Arena, up: u32, ss: &[Spec<Counted>]) -> Result<(), Memory>
    ensures { OnOk result (arena.new ≡ spec.put_specs (specs_of ss.now) up arena.old) }
{
    for s in ss {
        fill_spec(arena, up, s)?;
    }
    Ok(())
}

#[cycle(fill)]
fn fill_member(arena: &mut Arena, up: u32, m: &Member<Counted>) -> Result<(), Memory>
    ensures { OnOk result (arena.new ≡ spec.put_member (view_member m.now) up arena.old) }
{
    let span = list_declarators(arena, m.declarators.as_slice())?;
    put(arena, up, &m.note, Node::Members(span))?;
    fill_specs(arena, m.note.number, m.specs.as_slice())?;
    fill_declarators(arena, m.note.number, m.declarators.as_slice())
}

#[cycle(fill)]
fn fill_members(arena: &mut Arena, up: u32, ms: &[Member<Counted>]) -> Result<(), Memory>
    ensures { OnOk result (arena.new ≡ spec.put_members (members_of ms.now) up arena.old) }
{
    for m in ms {
        fill_member(arena, up, m)?;
    }
    Ok(())
}

#[cycle(fill)]
fn fill_constant(arena: &mut Arena, up: u32, c: &Constant<Counted>) -> Result<(), Memory>
    ensures { OnOk result (arena.new ≡ spec.put_constant (view_constant c.now) up arena.old) }
{
    put(arena, up, &c.note, Node::Constant(option_number(&c.value)))?;
    fill_option(arena, c.note.number, &c.value)
}

#[cycle(fill)]
fn fill_constants(arena: &mut Arena, up: u32, cs: &[Constant<Counted>]) -> Result<(), Memory>
    ensures { OnOk result (arena.new ≡ spec.put_constants (constants_of cs.now) up arena.old) }
{
    for c in cs {
        fill_constant(arena, up, c)?;
    }
    Ok(())
}

// `value` is the number of the declarator's initialiser, which its name's node says.
#[cycle(fill)]
pub(crate) fn fill_declarator(
    arena: &mut Arena,
    up: u32,
    value: Option<u32>,
    d: &Declarator<Counted>,
) -> Result<(), Memory>
    ensures { OnOk result (arena.new ≡ spec.put_declarator (view_declarator d.now) value up arena.old) }
{
    match d {
        Declarator::Name(note, _) => put(arena, up, note, Node::Declared(value)),
        Declarator::Nameless => Ok(()),
        Declarator::Pointer(note, _, d) => {
            put(arena, up, note, Node::Pointer(declarator_number(d.get())))?;
            fill_declarator(arena, note.number, value, d.get())
        }
        Declarator::Array(note, d, length) => {
            let node = Node::Array(declarator_number(d.get()), option_number(length));
            put(arena, up, note, node)?;
            fill_declarator(arena, note.number, value, d.get())?;
            fill_option(arena, note.number, length)
        }
        Declarator::Func(note, d, ps) => {
            let span = list_types(arena, ps.as_slice())?;
            put(
                arena,
                up,
                note,
                Node::Function(declarator_number(d.get()), span),
            )?;
            fill_declarator(arena, note.number, value, d.get())?;
            fill_types(arena, note.number, ps.as_slice())
        }
        Declarator::Paren(note, d) => {
            put(arena, up, note, Node::Group(declarator_number(d.get())))?;
            fill_declarator(arena, note.number, value, d.get())
        }
    }
}

#[cycle(fill)]
fn fill_declarators(arena: &mut Arena, up: u32, ds: &[Declarator<Counted>]) -> Result<(), Memory>
    ensures { OnOk result (arena.new ≡ spec.put_declarators (declarators_of ds.now) up arena.old) }
{
    for d in ds {
        fill_declarator(arena, up, None, d)?;
    }
    Ok(())
}
