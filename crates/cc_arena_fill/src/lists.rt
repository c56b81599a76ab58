// The lists of parts, each put into the arena before any part is walked.
ghost use Rattle.std.specs.Prelude.{◌≡◌, OnOk, IfOk, map};
ghost use Rattle.cc_tree.specs.Views.{exprs_of, types_of, members_of, constants_of, declarators_of, values_of, view_init, items_of};
ghost use Rattle.cc_arena.specs.Arenas.{with_list, with_bytes, span_after};
ghost use Rattle.cc_arena_fill.specs.Numbers as spec;

use crate::numbers::{
    constant_number, declarator_number, item_number, member_number, number, type_number,
    value_number,
};
use cc_arena::{Arena, Span};
use cc_base::{Bytes, Memory};
use cc_tree::{Constant, Declarator, Expr, Init, Item, Member, TypeName, Value};
use cc_tree_notes::Counted;

// Puts a number into the lists, if there is one.
fn list_option(arena: &mut Arena, number: Option<u32>) -> Result<(), Memory>
    ensures { OnOk result (arena.new ≡ with_list (spec.at_most_one number) arena.old) }
{
    match number {
        Some(number) => arena.push_number(number),
        None => Ok(()),
    }
}

// Puts the numbers of arguments into the lists.
pub(crate) fn list_exprs(arena: &mut Arena, es: &[Expr<Counted>]) -> Result<Span, Memory>
    ensures list { OnOk result (arena.new ≡ with_list (spec.numbers_of (exprs_of es.now)) arena.old) }
    ensures span { IfOk result (λ s. s ≡ span_after arena.old.lists (spec.numbers_of (exprs_of es.now))) }
{
    let start = arena.list_end()?;
    for e in es {
        arena.push_number(number(e))?;
    }
    let end = arena.list_end()?;
    Ok(Span { start, end })
}

// Puts the numbers of parameters into the lists.
pub(crate) fn list_types(arena: &mut Arena, ts: &[TypeName<Counted>]) -> Result<Span, Memory>
    ensures list { OnOk result (arena.new ≡ with_list (spec.type_numbers (types_of ts.now)) arena.old) }
    ensures span { IfOk result (λ s. s ≡ span_after arena.old.lists (spec.type_numbers (types_of ts.now))) }
{
    let start = arena.list_end()?;
    for t in ts {
        arena.push_number(type_number(t))?;
    }
    let end = arena.list_end()?;
    Ok(Span { start, end })
}

// Puts the numbers of lines of members into the lists.
pub(crate) fn list_members(arena: &mut Arena, ms: &[Member<Counted>]) -> Result<Span, Memory>
    ensures list { OnOk result (arena.new ≡ with_list (spec.member_numbers (members_of ms.now)) arena.old) }
    ensures span { IfOk result (λ s. s ≡ span_after arena.old.lists (spec.member_numbers (members_of ms.now))) }
{
    let start = arena.list_end()?;
    for m in ms {
        arena.push_number(member_number(m))?;
    }
    let end = arena.list_end()?;
    Ok(Span { start, end })
}

// Puts the numbers of enumeration constants into the lists.
pub(crate) fn list_constants(arena: &mut Arena, cs: &[Constant<Counted>]) -> Result<Span, Memory>
    ensures list { OnOk result (arena.new ≡ with_list (spec.constant_numbers (constants_of cs.now)) arena.old) }
    ensures span { IfOk result (λ s. s ≡ span_after arena.old.lists (spec.constant_numbers (constants_of cs.now))) }
{
    let start = arena.list_end()?;
    for c in cs {
        arena.push_number(constant_number(c))?;
    }
    let end = arena.list_end()?;
    Ok(Span { start, end })
}

// Puts the numbers of members into the lists.
pub(crate) fn list_declarators(
    arena: &mut Arena,
    ds: &[Declarator<Counted>],
) -> Result<Span, Memory>
    ensures list { OnOk result (arena.new ≡ with_list (spec.declarator_numbers (declarators_of ds.now)) arena.old) }
    ensures span { IfOk result (λ s. s ≡ span_after arena.old.lists (spec.declarator_numbers (declarators_of ds.now))) }
{
    let start = arena.list_end()?;
    for d in ds {
        list_option(arena, declarator_number(d))?;
    }
    let end = arena.list_end()?;
    Ok(Span { start, end })
}

// Puts the numbers of initialisers in braces into the lists.
pub(crate) fn list_values(arena: &mut Arena, vs: &[Value<Counted>]) -> Result<Span, Memory>
    ensures list { OnOk result (arena.new ≡ with_list (spec.value_numbers (values_of vs.now)) arena.old) }
    ensures span { IfOk result (λ s. s ≡ span_after arena.old.lists (spec.value_numbers (values_of vs.now))) }
{
    let start = arena.list_end()?;
    for v in vs {
        arena.push_number(value_number(v))?;
    }
    let end = arena.list_end()?;
    Ok(Span { start, end })
}

// Puts the numbers of declarators of a declaration into the lists.
pub(crate) fn list_inits(arena: &mut Arena, is: &[Init<Counted>]) -> Result<Span, Memory>
    ensures list { OnOk result (arena.new ≡ with_list (spec.init_numbers (map view_init is.now)) arena.old) }
    ensures span { IfOk result (λ s. s ≡ span_after arena.old.lists (spec.init_numbers (map view_init is.now))) }
{
    let start = arena.list_end()?;
    for i in is {
        list_option(arena, declarator_number(&i.declarator))?;
    }
    let end = arena.list_end()?;
    Ok(Span { start, end })
}

// Puts the numbers of items of a block into the lists.
pub(crate) fn list_items(arena: &mut Arena, is: &[Item<Counted>]) -> Result<Span, Memory>
    ensures list { OnOk result (arena.new ≡ with_list (spec.item_numbers (items_of is.now)) arena.old) }
    ensures span { IfOk result (λ s. s ≡ span_after arena.old.lists (spec.item_numbers (items_of is.now))) }
{
    let start = arena.list_end()?;
    for i in is {
        arena.push_number(item_number(i))?;
    }
    let end = arena.list_end()?;
    Ok(Span { start, end })
}

fn push_bytes(arena: &mut Arena, bytes: &[u8]) -> Result<(), Memory>
    ensures { OnOk result (arena.new ≡ with_bytes bytes.now arena.old) }
{
    for byte in bytes {
        arena.push_byte(*byte)?;
    }
    Ok(())
}

// Puts the bytes of string literals, one after the other, into the arena.
pub(crate) fn list_bytes(arena: &mut Arena, ss: &[Bytes]) -> Result<Span, Memory>
    ensures bytes { OnOk result (arena.new ≡ with_bytes (spec.joined ss.now) arena.old) }
    ensures span { IfOk result (λ s. s ≡ span_after arena.old.bytes (spec.joined ss.now)) }
{
    let start = arena.byte_end()?;
    for s in ss {
        push_bytes(arena, s.bytes())?;
    }
    let end = arena.byte_end()?;
    Ok(Span { start, end })
}
