// What an expression looks like.
ghost use Rattle.std.specs.Prelude.{◌≡◌};
ghost use Rattle.cc_tree.specs.Views.{view};
ghost use Rattle.cc_typing.specs.Forms as spec;

use crate::look_ups::{is_void_pointer, names_object};
use cc_symbols::Symbols;
use cc_tree::{Expr, UnaryOp};
use cc_tree_notes::Counted;
use cc_tree_walks::type_note;

/// Whether it is an integer constant token of value 0, in any parentheses.
pub fn is_zero(e: &Expr<Counted>) -> bool
    ensures { result ≡ spec.is_zero (view e.now) }
{
    match e {
        Expr::Int(_, value, _) => *value == 0,
        Expr::Paren(_, e) => is_zero(e.get()),
        _ => false,
    }
}

/// Whether it is a null constant: an integer constant token of value 0, or `(void *)` applied to one, each in any
/// parentheses.
pub fn is_null(symbols: &Symbols, e: &Expr<Counted>) -> bool
    ensures { result ≡ spec.is_null symbols.now (view e.now) }
{
    match e {
        Expr::Int(_, value, _) => *value == 0,
        Expr::Paren(_, e) => is_null(symbols, e.get()),
        Expr::Cast(_, t, e) => makes_null(symbols, type_note(t.get()).number, e.get()),
        _ => false,
    }
}

// Whether a cast by the type name of this number of this operand is a null constant.
pub(crate) fn makes_null(symbols: &Symbols, number: u32, e: &Expr<Counted>) -> bool
    ensures { result ≡ spec.makes_null symbols.now number (view e.now) }
{
    is_void_pointer(symbols, number) && is_zero(e)
}

/// Whether it is an lvalue by its form (C17 6.3.2.1), if it has a type other than a function's: the name of an object, a
/// string literal, `*e`, `e[i]`, `e->m`, and `e.m` of an lvalue, in any parentheses.
pub fn is_place(symbols: &Symbols, e: &Expr<Counted>) -> bool
    ensures { result ≡ spec.is_place symbols.now (view e.now) }
{
    match e {
        Expr::Name(n, _) => names_object(symbols, n.number),
        Expr::Str(_, _) => true,
        Expr::Paren(_, e) => is_place(symbols, e.get()),
        Expr::Unary(_, op, _) => is_dereference(*op),
        Expr::Member(_, e, _) => is_place(symbols, e.get()),
        Expr::Arrow(_, _, _) | Expr::Index(_, _, _) => true,
        _ => false,
    }
}

fn is_dereference(op: UnaryOp) -> bool
    ensures { result ≡ spec.is_dereference op }
{
    matches!(op, UnaryOp::Deref)
}
