// Which initialisers have types.
ghost use Rattle.std.specs.Prelude.{◌≡◌};
ghost use Rattle.cc_tree.specs.Trees.{single};
ghost use Rattle.cc_tree.specs.Views.{view, view_value, values_of};
ghost use Rattle.cc_check_values.specs.Typed as spec;

use cc_symbols::{Findings, rule};
use cc_tree::{Expr, Value};
use cc_tree_notes::Counted;
use cc_tree_walks::{expr_note, value_note};
use cc_types::ExprType;
use cc_typing::offend;

// The type that an expression was found to have.
pub(crate) fn type_of(found: &Findings, e: &Expr<Counted>) -> Option<ExprType>
    ensures { result ≡ spec.type_of found.now (view e.now) }
{
    match found.types.get(expr_note(e).number) {
        Some(kind) => kind,
        None => None,
    }
}

/// Whether all expressions of an initialiser have a type: no rule on their own form is broken.
#[cycle(typed)]
pub fn is_typed(found: &Findings, v: &Value<Counted>) -> bool
    ensures { result ≡ spec.is_typed found.now (view_value v.now) }
{
    match v {
        Value::Expr(e) => type_of(found, e).is_some(),
        Value::List(_, vs, _) => are_typed(found, vs.as_slice()),
    }
}

#[cycle(typed)]
fn are_typed(found: &Findings, vs: &[Value<Counted>]) -> bool
    ensures { result ≡ spec.are_typed found.now (values_of vs.now) }
{
    for v in vs {
        if !is_typed(found, v) {
            return false;
        }
    }
    true
}

// C25 at an initialiser, where its expressions have types.
pub(crate) fn misshapen(found: &mut Findings, v: &Value<Counted>)
    ensures { found.new ≡ spec.misshapen (view_value v.now) found.old }
{
    if is_typed(found, v) {
        offend(found, value_note(v).spot, rule::INITIALISER_SHAPE);
    }
}

// The same at an expression without braces.
pub(crate) fn misshapen_single(found: &mut Findings, e: &Expr<Counted>)
    ensures { found.new ≡ spec.misshapen (single (view e.now)) found.old }
{
    if type_of(found, e).is_some() {
        offend(found, expr_note(e).spot, rule::INITIALISER_SHAPE);
    }
}
