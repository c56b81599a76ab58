// The values of integer constant expressions.
ghost use Rattle.std.specs.Prelude.{◌≡◌};
ghost use Rattle.cc_tree.specs.Views.{view};
ghost use Rattle.cc_constants.specs.Values as spec;

use crate::forms::{enumerator_at, is_constant};
use crate::operators::{chosen, combined, converted, prefixed};
use cc_arith::IntKind;
use cc_symbols::{Findings, Symbols};
use cc_tree::Expr;
use cc_tree_notes::Counted;
use cc_tree_walks::{expr_note, type_note};
use cc_types::{ExprType, Shape};
use cc_typing::kind_at;

// The bytes of a pointer.
const POINTER_BYTES: i128 = 8;

/// The value of an integer constant expression that is judged: one that has a type, is such an expression by its form
/// (C17 6.6), and in which what is evaluated is defined. Operators work in the kinds of `found.types`. Takes no memory.
pub fn constant(symbols: &Symbols, found: &Findings, e: &Expr<Counted>) -> Option<i128>
    ensures { result ≡ spec.constant symbols.now found.now (view e.now) }
{
    if is_constant(symbols, e) && kind_of(symbols, found, e).is_some() {
        value(symbols, found, e)
    } else {
        None
    }
}

// The type that a node has.
fn type_of(found: &Findings, e: &Expr<Counted>) -> Option<ExprType>
    ensures { result ≡ spec.type_of found.now (view e.now) }
{
    match found.types.get(expr_note(e).number) {
        Some(t) => t,
        None => None,
    }
}

// The integer kind that a node has.
fn kind_of(symbols: &Symbols, found: &Findings, e: &Expr<Counted>) -> Option<IntKind>
    ensures { result ≡ spec.kind_of symbols.now found.now (view e.now) }
{
    match type_of(found, e) {
        Some(t) => symbols.types.kind(t),
        None => None,
    }
}

// The value of what is a constant expression by its form.
fn value(symbols: &Symbols, found: &Findings, e: &Expr<Counted>) -> Option<i128>
    ensures { result ≡ spec.value symbols.now found.now (view e.now) }
{
    match e {
        Expr::Int(_, v, _) | Expr::Char(_, v) => Some(*v),
        Expr::Name(n, _) => enumerator_at(symbols, n.number),
        Expr::Paren(_, e) => value(symbols, found, e.get()),
        Expr::Unary(_, op, e) => {
            let v = value(symbols, found, e.get());
            prefixed(*op, kind_of(symbols, found, e.get()), v)
        }
        Expr::Binary(_, op, a, b) => {
            let v = value(symbols, found, a.get());
            let w = value(symbols, found, b.get());
            let j = kind_of(symbols, found, a.get());
            combined(*op, j, v, kind_of(symbols, found, b.get()), w)
        }
        Expr::Cond(_, c, a, b) => {
            let test = value(symbols, found, c.get());
            let v = value(symbols, found, a.get());
            let w = value(symbols, found, b.get());
            chosen(kind_of(symbols, found, e), test, v, w)
        }
        Expr::Cast(_, _, a) => {
            let v = value(symbols, found, a.get());
            converted(kind_of(symbols, found, e), v)
        }
        Expr::SizeExpr(_, e) => size_of(symbols, type_of(found, e.get())),
        Expr::SizeType(_, t) => size_at(symbols, type_note(t.get()).number),
        _ => None,
    }
}

// The bytes of an object of this type.
fn size_of(symbols: &Symbols, t: Option<ExprType>) -> Option<i128>
    ensures { result ≡ spec.size_of symbols.now t }
{
    match t {
        Some(ExprType::Plain(a)) => Some(bytes_of(symbols, a)),
        Some(ExprType::Address(_)) => Some(POINTER_BYTES),
        None => None,
    }
}

fn bytes_of(symbols: &Symbols, a: Shape) -> i128
    ensures { result ≡ spec.bytes_of symbols.now a }
{
    i128::from(symbols.structs.measure(&symbols.types, a).size)
}

// The bytes of an object of the type of this type name.
fn size_at(symbols: &Symbols, number: u32) -> Option<i128>
    ensures { result ≡ spec.size_at symbols.now number }
{
    match kind_at(symbols, number) {
        Some(id) => Some(bytes_of(symbols, symbols.types.shape(id))),
        None => None,
    }
}
