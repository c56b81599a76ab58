// What a static scalar may begin with.
ghost use Rattle.std.specs.Prelude.{◌≡◌};
ghost use Rattle.cc_tree.specs.Views.{view};
ghost use Rattle.cc_check_values.specs.Statics as spec;

use crate::typed::type_of;
use cc_constants::{constant, is_constant};
use cc_symbols::{Declared, Findings, Form, Life, Symbols};
use cc_tree::{Expr, UnaryOp};
use cc_tree_notes::Counted;
use cc_types::{ExprType, Shape};
use cc_typing::{declaration_at, is_null};

fn is_function(declared: Option<Declared>) -> bool
    ensures { result ≡ spec.has_form spec.is_function_form declared }
{
    match declared {
        Some(declared) => matches!(declared.form, Form::Function),
        None => false,
    }
}

fn is_static_object(declared: Option<Declared>) -> bool
    ensures { result ≡ spec.has_form spec.is_static_form declared }
{
    match declared {
        Some(declared) => matches!(declared.form, Form::Object(Life::Static)),
        None => false,
    }
}

fn is_function_name(symbols: &Symbols, e: &Expr<Counted>) -> bool
    ensures { result ≡ spec.is_function_name symbols.now (view e.now) }
{
    match e {
        Expr::Name(n, _) => is_function(declaration_at(symbols, n.number)),
        _ => false,
    }
}

fn is_array(kind: Option<ExprType>) -> bool
    ensures { result ≡ spec.is_array_type kind }
{
    matches!(kind, Some(ExprType::Plain(Shape::Array(_, _, _))))
}

// The length of an array, if it is known.
fn length_in(kind: Option<ExprType>) -> Option<u64>
    ensures { result ≡ spec.length_in kind }
{
    match kind {
        Some(ExprType::Plain(Shape::Array(_, _, length))) => length,
        _ => None,
    }
}

// Whether an index is below a length, or the length itself where that is allowed.
fn is_up_to(is_end: bool, length: Option<u64>, index: Option<i128>) -> bool
    ensures { result ≡ spec.is_up_to is_end length index }
{
    match (length, index) {
        (Some(length), Some(index)) => is_from_start(is_end, length, index),
        _ => false,
    }
}

fn is_from_start(is_end: bool, length: u64, index: i128) -> bool
    ensures { result ≡ spec.is_from_start is_end length index }
{
    let length = length as i128;
    0 <= index && (index < length || is_end && index == length)
}

// Whether an index is a constant from 0 to the length of an array.
fn is_within(
    symbols: &Symbols,
    found: &Findings,
    base: &Expr<Counted>,
    index: &Expr<Counted>,
    is_end: bool,
) -> bool
    ensures { result ≡ spec.is_within symbols.now found.now (view base.now) (view index.now) is_end }
{
    let length = length_in(type_of(found, base));
    is_up_to(is_end, length, constant(symbols, found, index))
}

// Whether it is a static path: the name of a static object with members and indices, each below its array's length.
fn is_path(symbols: &Symbols, found: &Findings, e: &Expr<Counted>) -> bool
    ensures { result ≡ spec.is_path symbols.now found.now (view e.now) }
{
    match e {
        Expr::Name(n, _) => is_static_object(declaration_at(symbols, n.number)),
        Expr::Member(_, e, _) => is_path(symbols, found, e.get()),
        Expr::Index(_, base, index) => {
            is_path(symbols, found, base.get())
                && is_within(symbols, found, base.get(), index.get(), false)
        }
        _ => false,
    }
}

// Whether it is a static path, or the place behind the last element of an array that is one.
fn is_path_or_end(symbols: &Symbols, found: &Findings, e: &Expr<Counted>) -> bool
    ensures { result ≡ spec.is_path_or_end symbols.now found.now (view e.now) }
{
    match e {
        Expr::Index(_, base, index) => {
            is_path(symbols, found, base.get())
                && is_within(symbols, found, base.get(), index.get(), true)
        }
        _ => is_path(symbols, found, e),
    }
}

// Whether it is the name of a function, or a static path of array type.
fn is_designator(symbols: &Symbols, found: &Findings, e: &Expr<Counted>) -> bool
    ensures { result ≡ spec.is_designator symbols.now found.now (view e.now) }
{
    is_function_name(symbols, e) || is_array(type_of(found, e)) && is_path(symbols, found, e)
}

// Whether it is a string literal, the name of a function with or without `&`, a static path of array type, or `&` of a
// static path.
fn is_address(symbols: &Symbols, found: &Findings, e: &Expr<Counted>) -> bool
    ensures { result ≡ spec.is_address symbols.now found.now (view e.now) }
{
    match e {
        Expr::Str(_, _) => true,
        Expr::Unary(_, UnaryOp::Address, e) => {
            is_function_name(symbols, e.get()) || is_path_or_end(symbols, found, e.get())
        }
        _ => is_designator(symbols, found, e),
    }
}

fn is_bare_form(symbols: &Symbols, found: &Findings, e: &Expr<Counted>) -> bool
    ensures { result ≡ spec.is_bare_form symbols.now found.now (view e.now) }
{
    is_constant(symbols, e) || is_null(symbols, e) || is_address(symbols, found, e)
}

/// Whether, in any parentheses, it is one of the six forms of C26: an integer constant expression, a null constant, a string
/// literal, the name of a function with or without `&`, a static path of array type, `&` of a static path.
pub(crate) fn is_static_value(symbols: &Symbols, found: &Findings, e: &Expr<Counted>) -> bool
    ensures { result ≡ spec.is_static_value symbols.now found.now (view e.now) }
{
    match e {
        Expr::Paren(_, e) => is_static_value(symbols, found, e.get()),
        _ => is_bare_form(symbols, found, e),
    }
}
