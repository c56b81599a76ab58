// Calls (C17 6.5.2.2).
ghost use Rattle.std.specs.Prelude.{◌≡◌};
ghost use Rattle.cc_judging.specs.Calls as spec;

use crate::judged::{Judged, Part};
use cc_symbols::rule;
use cc_types::{ExprType, Shape, TypeTable};

/// How far a call is judged: after its designator, and after each argument.
#[derive(Clone, Copy)]
pub enum Passing {
    /// The designator or an argument has no type.
    Unknown,
    /// The designator is neither a function nor a pointer to one.
    NoFunction,
    /// What is called, with the parameters that are left.
    Left(Shape),
    /// There were more arguments than parameters.
    Beyond,
}

/// A call before its arguments, where its designator has this type.
pub fn called(table: &TypeTable, t: Option<ExprType>) -> Passing
    ensures { result ≡ spec.called table.now t }
{
    match t {
        Some(t) => designated(table, table.value(t)),
        None => Passing::Unknown,
    }
}

fn designated(table: &TypeTable, t: ExprType) -> Passing
    ensures { result ≡ spec.designated table.now t }
{
    match table.pointee(t) {
        Some(a) => left_of(a),
        None => Passing::NoFunction,
    }
}

fn left_of(a: Shape) -> Passing
    ensures { result ≡ spec.left_of a }
{
    if a.is_function() {
        Passing::Left(a)
    } else {
        Passing::NoFunction
    }
}

/// The type of the next parameter, to which the next argument is passed.
pub fn parameter(table: &TypeTable, state: Passing) -> Option<ExprType>
    ensures { result ≡ spec.parameter table.now state }
{
    match state {
        Passing::Left(Shape::Takes(t, _)) => Some(ExprType::Plain(table.shape(t))),
        _ => None,
    }
}

/// The call after one argument more, of this type.
pub fn pass_one(table: &TypeTable, state: Passing, t: Option<ExprType>) -> Passing
    ensures { result ≡ spec.pass_one table.now state t }
{
    match t {
        Some(_) => passed(table, state),
        None => Passing::Unknown,
    }
}

fn passed(table: &TypeTable, state: Passing) -> Passing
    ensures { result ≡ spec.passed_one table.now state }
{
    match state {
        Passing::Left(Shape::Takes(_, rest)) => Passing::Left(table.shape(rest)),
        Passing::Left(_) => Passing::Beyond,
        Passing::Unknown | Passing::NoFunction | Passing::Beyond => state,
    }
}

/// A call after its arguments: C36 and C37, at the call.
pub fn call(table: &TypeTable, state: Passing) -> Judged
    ensures { result ≡ spec.call_judged table.now state }
{
    match state {
        Passing::Unknown => Judged::Untyped,
        Passing::NoFunction => Judged::Breaks(rule::CALLED_FUNCTION, Part::Whole),
        Passing::Left(Shape::Function(t)) => Judged::Typed(ExprType::Plain(table.shape(t))),
        Passing::Left(_) | Passing::Beyond => Judged::Breaks(rule::ARGUMENT_COUNT, Part::Whole),
    }
}
