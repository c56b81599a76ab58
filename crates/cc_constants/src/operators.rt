// What operators give values, if they have them.
ghost use Rattle.std.specs.Prelude.{◌≡◌};
ghost use Rattle.cc_arith.specs.Promotions.{IsPromoted};
ghost use Rattle.cc_arith.specs.Operators.{IsRightOperand};
ghost use Rattle.cc_constants.specs.Operators as spec;

use cc_arith::{ArithUndef, IntKind, IntOp, IntUnary, binary, common, convert, promote, unary};
use cc_tree::{BinaryOp, UnaryOp};

// `op v`, where v has kind k.
pub(crate) fn prefixed(op: UnaryOp, k: Option<IntKind>, v: Option<i128>) -> Option<i128>
    ensures { result ≡ spec.prefixed op k v }
{
    match (op, k, v) {
        (UnaryOp::Int(op), Some(k), Some(v)) => int_prefixed(op, k, v),
        _ => None,
    }
}

fn int_prefixed(op: IntUnary, k: IntKind, v: i128) -> Option<i128>
    ensures { result ≡ spec.int_prefixed op k v }
{
    let kind = promote(k);
    defined(unary(op, kind, convert(kind, v)))
}

// What an operator gives, where that is defined.
fn defined(answer: Result<i128, ArithUndef>) -> Option<i128>
    ensures { result ≡ spec.defined answer }
{
    match answer {
        Ok(v) => Some(v),
        Err(_) => None,
    }
}

// `v op w`, where v and w have kinds j and k.
pub(crate) fn combined(
    op: BinaryOp,
    j: Option<IntKind>,
    v: Option<i128>,
    k: Option<IntKind>,
    w: Option<i128>,
) -> Option<i128>
    ensures { result ≡ spec.combined op j v k w }
{
    match op {
        BinaryOp::Int(op) => both(op, j, v, k, w),
        BinaryOp::AndAnd => and_value(v, w),
        BinaryOp::OrOr => or_value(v, w),
    }
}

fn both(
    op: IntOp,
    j: Option<IntKind>,
    v: Option<i128>,
    k: Option<IntKind>,
    w: Option<i128>,
) -> Option<i128>
    ensures { result ≡ spec.both op j v k w }
{
    match (j, v, k, w) {
        (Some(j), Some(v), Some(k), Some(w)) => int_combined(op, j, v, k, w),
        _ => None,
    }
}

fn int_combined(op: IntOp, j: IntKind, v: i128, k: IntKind, w: i128) -> Option<i128>
    ensures { result ≡ spec.int_combined op j v k w }
{
    let kind = kind_of_operation(op, j, k);
    let right = right_operand(op, j, k, w);
    defined(binary(op, kind, convert(kind, v), right))
}

// The kind in which an operator works on two integers.
fn kind_of_operation(op: IntOp, j: IntKind, k: IntKind) -> IntKind
    ensures value { result ≡ spec.kind_of_operation op j k }
    ensures promoted { IsPromoted result }
{
    match op {
        IntOp::Shl | IntOp::Shr => promote(j),
        _ => common(j, k),
    }
}

// The value of its right operand, promoted or converted: the count of a shift has a kind of its own.
fn right_operand(op: IntOp, j: IntKind, k: IntKind, w: i128) -> i128
    ensures value { result ≡ spec.right_operand op j k w }
    ensures right { IsRightOperand op (spec.kind_of_operation op j k) result }
{
    convert(kind_of_right(op, j, k), w)
}

// The kind in which an operator takes its right operand.
fn kind_of_right(op: IntOp, j: IntKind, k: IntKind) -> IntKind
    ensures { result ≡ spec.kind_of_right op j k }
{
    match op {
        IntOp::Shl | IntOp::Shr => promote(k),
        _ => common(j, k),
    }
}

// 1 where it isn't 0.
fn truth(v: Option<i128>) -> Option<i128>
    ensures { result ≡ spec.truth v }
{
    match v {
        Some(v) => Some(i128::from(v != 0)),
        None => None,
    }
}

// `&&`: the right operand isn't evaluated where the left one is 0 (C17 6.5.13, paragraph 4).
fn and_value(v: Option<i128>, w: Option<i128>) -> Option<i128>
    ensures { result ≡ spec.and_value v w }
{
    match v {
        Some(v) => { if v == 0 { Some(0) } else { truth(w) } }
        None => None,
    }
}

// `||`: the right operand isn't evaluated where the left one isn't 0 (C17 6.5.14, paragraph 4).
fn or_value(v: Option<i128>, w: Option<i128>) -> Option<i128>
    ensures { result ≡ spec.or_value v w }
{
    match v {
        Some(v) => { if v == 0 { truth(w) } else { Some(1) } }
        None => None,
    }
}

// `c ? v : w` of this kind: one branch alone is evaluated (C17 6.5.15, paragraph 4).
pub(crate) fn chosen(
    kind: Option<IntKind>,
    c: Option<i128>,
    v: Option<i128>,
    w: Option<i128>,
) -> Option<i128>
    ensures { result ≡ spec.chosen kind c v w }
{
    match c {
        Some(c) => converted(kind, if c == 0 { w } else { v }),
        None => None,
    }
}

// The value in this kind.
pub(crate) fn converted(kind: Option<IntKind>, v: Option<i128>) -> Option<i128>
    ensures { result ≡ spec.converted_to kind v }
{
    match (kind, v) {
        (Some(kind), Some(v)) => Some(convert(kind, v)),
        _ => None,
    }
}
