// Names and constants.
ghost use Rattle.std.specs.Prelude.{◌≡◌};
ghost use Rattle.cc_judging.specs.Leaves as spec;
ghost use Rattle.cc_judging.specs.Judging.{typed_integer};

use crate::judged::{self, Judged};
use cc_arith::IntKind;
use cc_symbols::{CHAR, Declared, Form};
use cc_types::{ExprType, Shape, TypeId, TypeTable};

/// A name that names this declaration (C17 6.5.1, paragraph 2). Without one it is untyped: it broke C35.
pub fn name(table: &TypeTable, declared: Option<Declared>) -> Judged
    ensures { result ≡ spec.name_judged table.now declared }
{
    match declared {
        Some(declared) => named(table, declared.form, declared.kind),
        None => Judged::Untyped,
    }
}

// The type of a name. A typedef name is no expression.
fn named(table: &TypeTable, form: Form, kind: Option<TypeId>) -> Judged
    ensures { result ≡ spec.named_judged table.now form kind }
{
    match form {
        Form::Constant(_) => judged::typed_integer(IntKind::Int),
        Form::Object(_) | Form::Function => of_kind(table, kind),
        Form::Typedef => Judged::Untyped,
    }
}

fn of_kind(table: &TypeTable, kind: Option<TypeId>) -> Judged
    ensures { result ≡ spec.of_kind table.now kind }
{
    match kind {
        Some(id) => Judged::Typed(ExprType::Plain(table.shape(id))),
        None => Judged::Untyped,
    }
}

/// An integer constant of this kind; a character constant is an `int` (C17 6.4.4.4, paragraph 10).
pub fn integer(kind: IntKind) -> Judged
    ensures { result ≡ typed_integer kind }
{
    judged::typed_integer(kind)
}

/// A string literal of so many bytes, the zero behind them counted: an array of `char` (C17 6.4.5, paragraph 6).
pub fn string(length: u64) -> Judged
    ensures { result ≡ spec.string_judged length }
{
    Judged::Typed(ExprType::Plain(Shape::Array(false, CHAR, Some(length))))
}

/// An expression in parentheses (C17 6.5.1, paragraph 5).
pub fn paren(t: Option<ExprType>) -> Judged
    ensures { result ≡ spec.paren_judged t }
{
    match t {
        Some(t) => Judged::Typed(t),
        None => Judged::Untyped,
    }
}
