// Numbers for initialisers and declarations.
ghost use Rattle.std.specs.Prelude.{◌≡◌, ◌+◌, ◌<◌, ◌^◌, map, option_map, IfOk, OnOk};
ghost use Rattle.cc_tree.specs.Nodes as nodes;
ghost use Rattle.cc_tree.specs.Views.{view_value, view_init, view_declaration, values_of};
ghost use Rattle.cc_tree_notes.specs.Numbering as spec;

use crate::expr::{boxed_declarator, number_expr, number_specs};
use crate::note::Counted;
use cc_base::{Memory, Spot};
use cc_tree::{Declaration, Init, Value};
use sqlite_items::Items;
use std::alloc::Global;

#[cycle(number)]
fn number_value(alloc: Global, v: &Value<Spot>, next: &mut u32) -> Result<Value<Counted>, Memory>
    requires { next.old + nodes.value_nodes (view_value v.now) < 2 ^ 32 }
    ensures tree { IfOk result (λ r. (view_value r, next.new) ≡ spec.numbered_value (view_value v.now) next.old) }
    ensures next { OnOk result (next.new ≡ next.old + nodes.value_nodes (view_value v.now)) }
{
    match v {
        Value::Expr(e) => Ok(Value::Expr(number_expr(alloc, e, next)?)),
        Value::List(spot, values, trailing) => {
            let note = Counted::new(*spot, next);
            let values = number_values(alloc, values.as_slice(), next)?;
            Ok(Value::List(note, values, *trailing))
        }
    }
}

#[cycle(number)]
fn number_values(
    alloc: Global,
    vs: &[Value<Spot>],
    next: &mut u32,
) -> Result<Items<Value<Counted>>, Memory>
    requires { next.old + nodes.values_nodes (values_of vs.now) < 2 ^ 32 }
    ensures tree { IfOk result (λ r. (map view_value r, next.new) ≡ spec.numbered_values (values_of vs.now) next.old) }
    ensures next { OnOk result (next.new ≡ next.old + nodes.values_nodes (values_of vs.now)) }
{
    let mut numbered = Items::new(alloc);
    for v in vs {
        numbered.push(number_value(alloc, v, next)?)?;
    }
    Ok(numbered)
}

fn number_given(
    alloc: Global,
    v: &Option<Value<Spot>>,
    next: &mut u32,
) -> Result<Option<Value<Counted>>, Memory>
    requires { next.old + nodes.given_nodes (option_map view_value v.now) < 2 ^ 32 }
    ensures tree { IfOk result (λ r. (option_map view_value r, next.new) ≡ spec.numbered_given (option_map view_value v.now) next.old) }
    ensures next { OnOk result (next.new ≡ next.old + nodes.given_nodes (option_map view_value v.now)) }
{
    match v {
        None => Ok(None),
        Some(v) => Ok(Some(number_value(alloc, v, next)?)),
    }
}

fn number_init(alloc: Global, i: &Init<Spot>, next: &mut u32) -> Result<Init<Counted>, Memory>
    requires { next.old + nodes.init_nodes (view_init i.now) < 2 ^ 32 }
    ensures tree { IfOk result (λ r. (view_init r, next.new) ≡ spec.numbered_init (view_init i.now) next.old) }
    ensures next { OnOk result (next.new ≡ next.old + nodes.init_nodes (view_init i.now)) }
{
    let declarator = boxed_declarator(alloc, &i.declarator, next)?;
    let value = number_given(alloc, &i.value, next)?;
    Ok(Init {
        declarator: declarator.into_inner(),
        value,
    })
}

fn number_inits(
    alloc: Global,
    is: &[Init<Spot>],
    next: &mut u32,
) -> Result<Items<Init<Counted>>, Memory>
    requires { next.old + nodes.inits_nodes (map view_init is.now) < 2 ^ 32 }
    ensures tree { IfOk result (λ r. (map view_init r, next.new) ≡ spec.numbered_inits (map view_init is.now) next.old) }
    ensures next { OnOk result (next.new ≡ next.old + nodes.inits_nodes (map view_init is.now)) }
{
    let mut numbered = Items::new(alloc);
    for i in is {
        numbered.push(number_init(alloc, i, next)?)?;
    }
    Ok(numbered)
}

pub(crate) fn number_declaration(
    alloc: Global,
    d: &Declaration<Spot>,
    next: &mut u32,
) -> Result<Declaration<Counted>, Memory>
    requires { next.old + nodes.declaration_nodes (view_declaration d.now) < 2 ^ 32 }
    ensures tree { IfOk result (λ r. (view_declaration r, next.new) ≡ spec.numbered_declaration (view_declaration d.now) next.old) }
    ensures next { OnOk result (next.new ≡ next.old + nodes.declaration_nodes (view_declaration d.now)) }
{
    let note = Counted::new(d.note, next);
    let specs = number_specs(alloc, d.specs.as_slice(), next)?;
    let inits = number_inits(alloc, d.inits.as_slice(), next)?;
    Ok(Declaration { note, specs, inits })
}
