// Initialisers of scalars.
ghost use Rattle.std.specs.Prelude.{◌≡◌};
ghost use Rattle.cc_tree.specs.Views.{view, view_value, values_of};
ghost use Rattle.cc_check_values.specs.Typed.{type_of};
ghost use Rattle.cc_check_values.specs.Scalars as spec;

use crate::statics::is_static_value;
use crate::typed::{misshapen, type_of};
use cc_constants::constant;
use cc_symbols::{Findings, Life, Symbols, rule};
use cc_tree::{Expr, Value};
use cc_tree_notes::Counted;
use cc_tree_walks::expr_note;
use cc_types::{ExprType, Shape};
use cc_typing::{check_fit, offend};

// C26 at the initialiser of a static scalar that is none of the six forms.
fn check_form(symbols: &Symbols, found: &mut Findings, e: &Expr<Counted>)
    ensures { found.new ≡ spec.form_checked symbols.now (view e.now) found.old }
{
    if !is_static_value(symbols, found, e) {
        offend(found, expr_note(e).spot, rule::STATIC_INITIALISER);
    }
}

// C27 at the initialiser of a static integer that is no constant with a value.
fn check_constant(symbols: &Symbols, found: &mut Findings, target: Shape, e: &Expr<Counted>)
    ensures { found.new ≡ spec.constant_checked symbols.now target (view e.now) found.old }
{
    if symbols.types.is_integer(ExprType::Plain(target)) && constant(symbols, found, e).is_none() {
        offend(found, expr_note(e).spot, rule::CONSTANT);
    }
}

// C26 and C27 of a static scalar.
fn check_static(
    symbols: &Symbols,
    found: &mut Findings,
    life: Life,
    target: Shape,
    e: &Expr<Counted>,
)
    ensures { found.new ≡ spec.static_checked symbols.now life target (view e.now) found.old }
{
    match life {
        Life::Static => {
            check_form(symbols, found, e);
            check_constant(symbols, found, target, e);
        }
        _ => {}
    }
}

// C26, C27 and C38 of the expression that a scalar begins with, where it has a type.
fn check_typed(
    symbols: &Symbols,
    found: &mut Findings,
    life: Life,
    target: Shape,
    e: &Expr<Counted>,
    kind: Option<ExprType>,
)
    ensures { found.new ≡ spec.typed_checked symbols.now life target (view e.now) kind found.old }
{
    match kind {
        Some(kind) => {
            check_static(symbols, found, life, target, e);
            check_fit(symbols, found, ExprType::Plain(target), e, Some(kind));
        }
        None => {}
    }
}

// The same with the type that it was found to have.
pub(crate) fn check_scalar(
    symbols: &Symbols,
    found: &mut Findings,
    life: Life,
    target: Shape,
    e: &Expr<Counted>,
)
    ensures { found.new ≡ spec.typed_checked symbols.now life target (view e.now) (type_of found.old (view e.now)) found.old }
{
    let kind = type_of(found, e);
    check_typed(symbols, found, life, target, e, kind);
}

// Whether it is an expression without braces.
fn is_single(v: &Value<Counted>) -> bool
    ensures { result ≡ spec.is_single (view_value v.now) }
{
    matches!(v, Value::Expr(_))
}

// Whether there is none but the first, which is an expression.
fn is_lone(vs: &[Value<Counted>]) -> bool
    ensures { result ≡ spec.is_lone 0 (values_of vs.now) }
{
    for (number, v) in vs.iter().enumerate() {
        if number > 0 || !is_single(v) {
            return false;
        }
    }
    true
}

// C26, C27 and C38 of an expression, which stands in the braces of a scalar.
fn check_only(
    symbols: &Symbols,
    found: &mut Findings,
    life: Life,
    target: Shape,
    v: &Value<Counted>,
)
    ensures { found.new ≡ spec.only_checked symbols.now life target (view_value v.now) found.old }
{
    match v {
        Value::Expr(e) => check_scalar(symbols, found, life, target, e),
        Value::List(_, _, _) => {}
    }
}

// The same for each.
fn check_each(
    symbols: &Symbols,
    found: &mut Findings,
    life: Life,
    target: Shape,
    vs: &[Value<Counted>],
)
    ensures { found.new ≡ spec.each_checked symbols.now life target (values_of vs.now) found.old }
{
    for v in vs {
        check_only(symbols, found, life, target, v);
    }
}

// C25 to C27 and C38 of a scalar's initialiser in braces: one expression.
pub(crate) fn check_lone(
    symbols: &Symbols,
    found: &mut Findings,
    life: Life,
    target: Shape,
    v: &Value<Counted>,
    vs: &[Value<Counted>],
)
    ensures { found.new ≡ spec.lone_checked symbols.now life target (view_value v.now) (values_of vs.now) found.old }
{
    if is_lone(vs) {
        check_each(symbols, found, life, target, vs);
    } else {
        misshapen(found, v);
    }
}
