// Operators, by the types of their operands.
ghost use Rattle.std.specs.Prelude.{◌≡◌};
ghost use Rattle.cc_layout.specs.Operators as spec;

use crate::types::{common_at, element_cells, is_pointer_at, kind_at};
use cc_acts::Operator;
use cc_arith::{IntKind, IntOp, common, promote};
use cc_program::Program;
use cc_tree::AssignOp;

/// The kinds to which an operator on two integers converts them: a shift's are promoted each (C17 6.5.7p3), others have
/// one in common (6.3.1.8).
pub(crate) fn kinds(program: &Program, op: IntOp, a: u32, b: u32) -> (IntKind, IntKind)
    ensures { result ≡ spec.kinds program.now op a b }
{
    match op {
        IntOp::Shl | IntOp::Shr => (promote(kind_at(program, a)), promote(kind_at(program, b))),
        _ => {
            let kind = common_at(program, a, b);
            (kind, kind)
        }
    }
}

// How many cells the elements have into which two expressions point, of which one may be a null constant.
fn compared_cells(program: &Program, a: u32, b: u32) -> u32
    ensures { result ≡ spec.compared_cells program.now a b }
{
    if is_pointer_at(program, a) {
        element_cells(program, a)
    } else {
        element_cells(program, b)
    }
}

// `-` on a pointer and another expression.
fn difference(program: &Program, b: u32) -> Operator
    ensures { result ≡ spec.difference program.now b }
{
    if is_pointer_at(program, b) {
        Operator::Elements { op: IntOp::Sub }
    } else {
        Operator::Minus
    }
}

// The operator on two expressions of which one is a pointer (C17 6.5.6, 6.5.8, 6.5.9).
fn on_pointers(program: &Program, op: IntOp, a: u32, b: u32) -> Operator
    ensures { result ≡ spec.on_pointers program.now op a b }
{
    match op {
        IntOp::Add => Operator::Plus,
        IntOp::Sub => difference(program, b),
        IntOp::Eq => Operator::Equality {
            is_equal: true,
            cells: compared_cells(program, a, b),
        },
        IntOp::Ne => Operator::Equality {
            is_equal: false,
            cells: compared_cells(program, a, b),
        },
        _ => Operator::Elements { op },
    }
}

/// A binary operator on the expressions at two nodes.
pub fn operator_at(program: &Program, op: IntOp, a: u32, b: u32) -> Operator
    ensures { result ≡ spec.operator_at program.now op a b }
{
    if is_pointer_at(program, a) || is_pointer_at(program, b) {
        return on_pointers(program, op, a, b);
    }
    let (left, right) = kinds(program, op, a, b);
    Operator::Integers { op, left, right }
}

// One element on, or back.
fn stepped(op: IntOp) -> Operator
    ensures { result ≡ spec.stepped op }
{
    match op {
        IntOp::Sub => Operator::Minus,
        _ => Operator::Plus,
    }
}

/// The operator of a step: 1, an `int`, is added or taken away (C17 6.5.2.4p2, 6.5.3.1p2).
pub fn step_operator(program: &Program, op: IntOp, e: u32) -> Operator
    ensures { result ≡ spec.step_operator program.now op e }
{
    if is_pointer_at(program, e) {
        return stepped(op);
    }
    let kind = common(kind_at(program, e), IntKind::Int);
    Operator::Integers {
        op,
        left: kind,
        right: kind,
    }
}

/// The operator of a compound assignment; none of a plain one.
pub fn compound_of(op: AssignOp) -> Option<IntOp>
    ensures { result ≡ spec.compound_of op }
{
    match op {
        AssignOp::Plain => None,
        AssignOp::Mul => Some(IntOp::Mul),
        AssignOp::Div => Some(IntOp::Div),
        AssignOp::Rem => Some(IntOp::Rem),
        AssignOp::Add => Some(IntOp::Add),
        AssignOp::Sub => Some(IntOp::Sub),
        AssignOp::Shl => Some(IntOp::Shl),
        AssignOp::Shr => Some(IntOp::Shr),
        AssignOp::And => Some(IntOp::And),
        AssignOp::Xor => Some(IntOp::Xor),
        AssignOp::Or => Some(IntOp::Or),
    }
}
