// Assignments and steps (C17 6.5.2.4, 6.5.3.1, 6.5.16).
ghost use Rattle.std.specs.Prelude.{◌≡◌};
ghost use Rattle.cc_judging.specs.Assignments as spec;

use crate::judged::{Judged, Part, or_breaks};
use cc_symbols::rule;
use cc_tree::AssignOp;
use cc_types::{ExprType, Shape, Structs, TypeTable};

/// An assignment to a target, which may be an lvalue, of a value, which may be a null constant: C39 and C51 at the
/// operator; C38 at the value of a plain one, which leaves the assignment its type.
pub fn assign(
    table: &TypeTable,
    structs: &Structs,
    op: AssignOp,
    is_place: bool,
    s: Option<ExprType>,
    t: Option<ExprType>,
    n: bool,
) -> Judged
    ensures { result ≡ spec.assign_judged table.now structs.now op is_place s t n }
{
    match (s, t) {
        (Some(s), Some(t)) => assigned(table, structs, op, is_place, s, table.value(t), n),
        _ => Judged::Untyped,
    }
}

fn assigned(
    table: &TypeTable,
    structs: &Structs,
    op: AssignOp,
    is_place: bool,
    s: ExprType,
    t: ExprType,
    n: bool,
) -> Judged
    ensures { result ≡ spec.assigned table.now structs.now op is_place s t n }
{
    if is_place && is_assignable(s) {
        stored(table, structs, op, table.value(s), t, n)
    } else {
        Judged::Breaks(rule::TARGET, Part::Whole)
    }
}

// Whether it is a scalar or a struct, and not const. No lvalue has a type that is an address alone.
fn is_assignable(t: ExprType) -> bool
    ensures { result ≡ spec.is_assignable t }
{
    match t {
        ExprType::Plain(Shape::Integer(k, _)) => !k,
        ExprType::Plain(Shape::Pointer(k, _)) => !k,
        ExprType::Plain(Shape::Struct(k, _)) => !k,
        _ => false,
    }
}

// An assignment to what may be assigned.
fn stored(
    table: &TypeTable,
    structs: &Structs,
    op: AssignOp,
    s: ExprType,
    t: ExprType,
    n: bool,
) -> Judged
    ensures { result ≡ spec.stored table.now structs.now op s t n }
{
    match op {
        AssignOp::Plain => plain(table, structs, s, t, n),
        AssignOp::Add | AssignOp::Sub => moved(table, s, t),
        AssignOp::Mul | AssignOp::Div | AssignOp::Rem | AssignOp::Shl => computed(table, s, t),
        AssignOp::Shr | AssignOp::And | AssignOp::Xor | AssignOp::Or => computed(table, s, t),
    }
}

fn plain(table: &TypeTable, structs: &Structs, s: ExprType, t: ExprType, n: bool) -> Judged
    ensures { result ≡ spec.plain_judged table.now structs.now s t n }
{
    if table.fits(structs, t, n, s) {
        Judged::Typed(s)
    } else {
        Judged::Misfits(s)
    }
}

// `+=`, `-=`, and the steps as `+= 1` and `-= 1`.
fn moved(table: &TypeTable, s: ExprType, t: ExprType) -> Judged
    ensures { result ≡ spec.moved_judged table.now s t }
{
    let is_moved = table.is_integer(s) || table.points_to_object(s);
    let holds = is_moved && table.is_integer(t);
    or_breaks(holds, s, rule::STEP_OPERAND, Part::Whole)
}

// The other compound assignments.
fn computed(table: &TypeTable, s: ExprType, t: ExprType) -> Judged
    ensures { result ≡ spec.computed_judged table.now s t }
{
    let holds = table.is_integer(s) && table.is_integer(t);
    or_breaks(holds, s, rule::STEP_OPERAND, Part::Whole)
}

/// `++` or `--` on an operand, which may be an lvalue: C39 and C51 at the operator.
pub fn step(table: &TypeTable, is_place: bool, t: Option<ExprType>) -> Judged
    ensures { result ≡ spec.step_judged table.now is_place t }
{
    match t {
        Some(t) => stepped(table, is_place, t),
        None => Judged::Untyped,
    }
}

fn stepped(table: &TypeTable, is_place: bool, t: ExprType) -> Judged
    ensures { result ≡ spec.stepped table.now is_place t }
{
    if is_place && is_assignable(t) {
        let t = table.value(t);
        let holds = table.is_integer(t) || table.points_to_object(t);
        or_breaks(holds, t, rule::STEP_OPERAND, Part::Whole)
    } else {
        Judged::Breaks(rule::TARGET, Part::Whole)
    }
}
