// Casts and sizes (C17 6.5.3.4, 6.5.4).
ghost use Rattle.std.specs.Prelude.{◌≡◌};
ghost use Rattle.cc_judging.specs.Casts as spec;

use crate::judged::{Judged, Part, typed_integer};
use cc_arith::IntKind;
use cc_symbols::rule;
use cc_types::{ExprType, Shape, Structs, TypeId, TypeTable};

/// A cast to the type of this number, if the type name has one, of an operand of this type. It may make a null constant.
/// C49, at the whole.
pub fn cast(table: &TypeTable, target: Option<TypeId>, is_null: bool, t: Option<ExprType>) -> Judged
    ensures { result ≡ spec.cast_judged table.now target is_null t }
{
    match (target, t) {
        (Some(id), Some(t)) => cast_to(table, table.shape(id), is_null, table.value(t)),
        _ => Judged::Untyped,
    }
}

fn cast_to(table: &TypeTable, target: Shape, is_null: bool, t: ExprType) -> Judged
    ensures { result ≡ spec.cast_to table.now target is_null t }
{
    if is_null || may_be_cast(table, target, t) {
        Judged::Typed(ExprType::Plain(target.with_const(false)))
    } else {
        Judged::Breaks(rule::CAST, Part::Whole)
    }
}

// From integer to integer, or from anything to void.
fn may_be_cast(table: &TypeTable, target: Shape, t: ExprType) -> bool
    ensures { result ≡ spec.may_be_cast table.now target t }
{
    match target {
        Shape::Void(_) => true,
        Shape::Integer(_, _) => table.is_integer(t),
        _ => false,
    }
}

/// `sizeof` of this type, which isn't converted: C50, at the whole. It gives an `unsigned long`.
pub fn size_of(table: &TypeTable, structs: &Structs, t: Option<ExprType>) -> Judged
    ensures { result ≡ spec.size_judged table.now structs.now t }
{
    match t {
        Some(ExprType::Plain(a)) => size_of_shape(table, structs, a),
        Some(ExprType::Address(_)) => typed_integer(IntKind::ULong),
        None => Judged::Untyped,
    }
}

fn size_of_shape(table: &TypeTable, structs: &Structs, a: Shape) -> Judged
    ensures { result ≡ spec.size_of_shape table.now structs.now a }
{
    if structs.measure(table, a).is_complete {
        typed_integer(IntKind::ULong)
    } else {
        Judged::Breaks(rule::SIZE_OPERAND, Part::Whole)
    }
}
