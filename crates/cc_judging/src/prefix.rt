// Prefix operators (C17 6.5.3).
ghost use Rattle.std.specs.Prelude.{◌≡◌};
ghost use Rattle.cc_judging.specs.Prefixes as spec;

use crate::judged::{Judged, Part, int_or_breaks, or_breaks, typed_integer};
use cc_arith::IntUnary;
use cc_symbols::rule;
use cc_tree::UnaryOp;
use cc_types::{ExprType, Shape, Structs, TypeTable};

/// A prefix operator over an operand of this type, which may be an lvalue: C40, C41 and C42, at the operand.
pub fn unary(
    table: &TypeTable,
    structs: &Structs,
    op: UnaryOp,
    is_place: bool,
    t: Option<ExprType>,
) -> Judged
    ensures { result ≡ spec.unary_judged table.now structs.now op is_place t }
{
    match t {
        Some(t) => prefixed(table, structs, op, is_place, t),
        None => Judged::Untyped,
    }
}

fn prefixed(
    table: &TypeTable,
    structs: &Structs,
    op: UnaryOp,
    is_place: bool,
    t: ExprType,
) -> Judged
    ensures { result ≡ spec.prefixed table.now structs.now op is_place t }
{
    match op {
        UnaryOp::Address => address(is_place, t),
        UnaryOp::Deref => dereference(table, structs, table.value(t)),
        UnaryOp::Int(op) => int_unary(table, op, table.value(t)),
    }
}

// `&` (C17 6.5.3.2, paragraph 1). No lvalue has a type that is an address alone.
fn address(is_place: bool, t: ExprType) -> Judged
    ensures { result ≡ spec.address_judged is_place t }
{
    match t {
        ExprType::Plain(a) => {
            let holds = is_place || a.is_function();
            or_breaks(
                holds,
                ExprType::Address(a),
                rule::ADDRESS_OPERAND,
                Part::First,
            )
        }
        ExprType::Address(_) => Judged::Breaks(rule::ADDRESS_OPERAND, Part::First),
    }
}

// `*` (C17 6.5.3.2, paragraph 2).
fn dereference(table: &TypeTable, structs: &Structs, t: ExprType) -> Judged
    ensures { result ≡ spec.dereferenced table.now structs.now t }
{
    match table.pointee(t) {
        Some(a) => pointed_at(table, structs, a),
        None => Judged::Breaks(rule::POINTER_OPERAND, Part::First),
    }
}

fn pointed_at(table: &TypeTable, structs: &Structs, a: Shape) -> Judged
    ensures { result ≡ spec.pointed_at table.now structs.now a }
{
    let holds = a.is_function() || structs.measure(table, a).is_complete;
    or_breaks(
        holds,
        ExprType::Plain(a),
        rule::POINTER_OPERAND,
        Part::First,
    )
}

// `+`, `-`, `~`, `!` (C17 6.5.3.3).
fn int_unary(table: &TypeTable, op: IntUnary, t: ExprType) -> Judged
    ensures { result ≡ spec.int_unary_judged table.now op t }
{
    match op {
        IntUnary::Not => int_or_breaks(table.is_scalar(t), rule::UNARY_OPERAND, Part::First),
        IntUnary::Plus | IntUnary::Minus | IntUnary::Invert => promoted(table, t),
    }
}

fn promoted(table: &TypeTable, t: ExprType) -> Judged
    ensures { result ≡ spec.promoted_judged table.now t }
{
    match table.promoted_kind(t) {
        Some(kind) => typed_integer(kind),
        None => Judged::Breaks(rule::UNARY_OPERAND, Part::First),
    }
}
