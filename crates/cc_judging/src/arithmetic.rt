// Operators with two operands (C17 6.5.5 to 6.5.14).
ghost use Rattle.std.specs.Prelude.{◌≡◌};
ghost use Rattle.cc_judging.specs.Arithmetic as spec;

use crate::comparison::{equality, logical, order};
use crate::judged::{Judged, Part, or_breaks, typed_integer};
use cc_arith::{IntKind, IntOp, common, promote};
use cc_symbols::rule;
use cc_tree::BinaryOp;
use cc_types::{ExprType, Shape, TypeTable};

/// An operator with two operands of these types, each of which may be a null constant: C43 and C44 at the operator, C45 at
/// an operand.
pub fn binary(
    table: &TypeTable,
    op: BinaryOp,
    s: Option<ExprType>,
    m: bool,
    t: Option<ExprType>,
    n: bool,
) -> Judged
    ensures { result ≡ spec.binary_judged table.now op s m t n }
{
    match (s, t) {
        (Some(s), Some(t)) => values(table, op, table.value(s), m, table.value(t), n),
        _ => Judged::Untyped,
    }
}

fn values(table: &TypeTable, op: BinaryOp, s: ExprType, m: bool, t: ExprType, n: bool) -> Judged
    ensures { result ≡ spec.values_judged table.now op s m t n }
{
    match op {
        BinaryOp::Int(op) => numbers(table, op, s, m, t, n),
        BinaryOp::AndAnd | BinaryOp::OrOr => logical(table, s, t),
    }
}

fn numbers(table: &TypeTable, op: IntOp, s: ExprType, m: bool, t: ExprType, n: bool) -> Judged
    ensures { result ≡ spec.numbers_judged table.now op s m t n }
{
    match (table.kind(s), table.kind(t)) {
        (Some(j), Some(k)) => typed_integer(kind_of_two(op, j, k)),
        _ => pointers(table, op, s, m, t, n),
    }
}

// The kind of what an operator gives two integers.
fn kind_of_two(op: IntOp, j: IntKind, k: IntKind) -> IntKind
    ensures { result ≡ spec.kind_of_two op j k }
{
    match op {
        IntOp::Shl | IntOp::Shr => promote(j),
        IntOp::Lt | IntOp::Le | IntOp::Gt | IntOp::Ge | IntOp::Eq | IntOp::Ne => IntKind::Int,
        IntOp::Add | IntOp::Sub | IntOp::Mul | IntOp::Div | IntOp::Rem => common(j, k),
        IntOp::And | IntOp::Or | IntOp::Xor => common(j, k),
    }
}

// An operator of which an operand is no integer.
fn pointers(table: &TypeTable, op: IntOp, s: ExprType, m: bool, t: ExprType, n: bool) -> Judged
    ensures { result ≡ spec.pointers_judged table.now op s m t n }
{
    match op {
        IntOp::Add => sum(table, s, t),
        IntOp::Sub => difference(table, s, t),
        IntOp::Lt | IntOp::Le | IntOp::Gt | IntOp::Ge => order(table, s, t),
        IntOp::Eq | IntOp::Ne => equality(table, s, m, t, n),
        IntOp::Mul | IntOp::Div | IntOp::Rem | IntOp::And => {
            Judged::Breaks(rule::ARITHMETIC, Part::Whole)
        }
        IntOp::Or | IntOp::Xor | IntOp::Shl | IntOp::Shr => {
            Judged::Breaks(rule::ARITHMETIC, Part::Whole)
        }
    }
}

// `+`: a pointer to an object and an integer, in either order.
fn sum(table: &TypeTable, s: ExprType, t: ExprType) -> Judged
    ensures { result ≡ spec.sum_judged table.now s t }
{
    if table.points_to_object(s) && table.is_integer(t) {
        Judged::Typed(s)
    } else {
        let holds = table.is_integer(s) && table.points_to_object(t);
        or_breaks(holds, t, rule::ARITHMETIC, Part::Whole)
    }
}

// `-`: a pointer to an object and an integer, or two pointers to the same object type.
fn difference(table: &TypeTable, s: ExprType, t: ExprType) -> Judged
    ensures { result ≡ spec.difference_judged table.now s t }
{
    if table.points_to_object(s) && table.is_integer(t) {
        Judged::Typed(s)
    } else {
        let holds = table.points_to_object(s) && table.point_at_one(s, t);
        let long = ExprType::Plain(Shape::Integer(false, IntKind::Long));
        or_breaks(holds, long, rule::ARITHMETIC, Part::Whole)
    }
}
