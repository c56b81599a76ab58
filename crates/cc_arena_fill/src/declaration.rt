// Initialisers and declarations.
ghost use Rattle.std.specs.Prelude.{◌≡◌, OnOk, map, option_map};
ghost use Rattle.cc_tree.specs.Views.{view_value, view_init, view_declaration, values_of};
ghost use Rattle.cc_arena_fill.specs.Filling as spec;

use crate::expr::{fill_declarator, fill_expr, fill_specs, put};
use crate::lists::{list_inits, list_values};
use crate::numbers::{given_number, name_number};
use cc_arena::{Arena, Node};
use cc_base::Memory;
use cc_tree::{Declaration, Init, Value};
use cc_tree_notes::Counted;

#[cycle(fill)]
fn fill_value(arena: &mut Arena, up: u32, v: &Value<Counted>) -> Result<(), Memory>
    ensures { OnOk result (arena.new ≡ spec.put_value (view_value v.now) up arena.old) }
{
    match v {
        Value::Expr(e) => fill_expr(arena, up, e),
        Value::List(note, vs, _) => {
            let span = list_values(arena, vs.as_slice())?;
            put(arena, up, note, Node::Braces(span))?;
            fill_values(arena, note.number, vs.as_slice())
        }
    }
}

#[cycle(fill)]
fn fill_values(arena: &mut Arena, up: u32, vs: &[Value<Counted>]) -> Result<(), Memory>
    ensures { OnOk result (arena.new ≡ spec.put_values (values_of vs.now) up arena.old) }
{
    for v in vs {
        fill_value(arena, up, v)?;
    }
    Ok(())
}

fn fill_given(arena: &mut Arena, up: u32, v: &Option<Value<Counted>>) -> Result<(), Memory>
    ensures { OnOk result (arena.new ≡ spec.put_given (option_map view_value v.now) up arena.old) }
{
    match v {
        None => Ok(()),
        Some(v) => fill_value(arena, up, v),
    }
}

fn fill_init(arena: &mut Arena, up: u32, i: &Init<Counted>) -> Result<(), Memory>
    ensures { OnOk result (arena.new ≡ spec.put_init (view_init i.now) up arena.old) }
{
    fill_declarator(arena, up, given_number(&i.value), &i.declarator)?;
    fill_given(arena, name_number(&i.declarator, up), &i.value)
}

fn fill_inits(arena: &mut Arena, up: u32, is: &[Init<Counted>]) -> Result<(), Memory>
    ensures { OnOk result (arena.new ≡ spec.put_inits (map view_init is.now) up arena.old) }
{
    for i in is {
        fill_init(arena, up, i)?;
    }
    Ok(())
}

pub(crate) fn fill_declaration(
    arena: &mut Arena,
    up: u32,
    d: &Declaration<Counted>,
) -> Result<(), Memory>
    ensures { OnOk result (arena.new ≡ spec.put_declaration (view_declaration d.now) up arena.old) }
{
    let span = list_inits(arena, d.inits.as_slice())?;
    put(arena, up, &d.note, Node::Declaration(span))?;
    fill_specs(arena, d.note.number, d.specs.as_slice())?;
    fill_inits(arena, d.note.number, d.inits.as_slice())
}
