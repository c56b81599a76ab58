// The values of constant expressions, by node.
ghost use Rattle.std.specs.Prelude.{◌≡◌};
ghost use Rattle.cc_arith.specs.Operators.{IsRightOperand};
ghost use Rattle.cc_layout.specs.Operators as spec;

use crate::around::gives_at;
use crate::numbers::Numbers;
use crate::operators::kinds;
use crate::types::{cells_of, conversion_at, kind_at, member_offset};
use cc_acts::{Conversion, Gives};
use cc_arena::Node;
use cc_arith::{IntKind, IntOp, IntUnary, binary, convert, promote, unary};
use cc_base::Memory;
use cc_program::{Program, Referent};
use cc_store::{Pointer, Value};
use cc_symbols::Slots;
use cc_tree::{BinaryOp, UnaryOp};
use cc_types::{ExprType, Shape};
use std::alloc::Global;

/// By node, the value of a constant expression there; of an lvalue what it gives, as it is used.
pub type Constants = Slots<Option<Value>>;

// The bytes of a pointer.
const POINTER_BYTES: i128 = 8;

/// The constant that the expression at a node is.
pub(crate) fn known(constants: &Constants, n: u32) -> Option<Value> {
    constants.get(n).unwrap_or(None)
}

/// The integer that the expression at a node is.
pub(crate) fn integer(constants: &Constants, n: u32) -> Option<i128> {
    match known(constants, n) {
        Some(Value::Int(z)) => Some(z),
        _ => None,
    }
}

/// A pointer to the lasting object of this declarator or string literal.
pub fn lasting_place(numbers: &Numbers, n: u32) -> Option<Pointer> {
    match numbers.lasting.get(n) {
        Some(Some(k)) => Some(Pointer {
            object: n,
            instance: u64::from(k),
            place: k,
            base: 0,
            length: 1,
            index: 0,
        }),
        _ => None,
    }
}

// The part of an element, where elements have so many cells: its array of `length` elements from this offset on.
fn part_of(p: Pointer, cells: u32, offset: u32, length: u32) -> Pointer {
    let element = p.base.saturating_add(p.index.saturating_mul(cells));
    Pointer {
        base: element.saturating_add(offset),
        length,
        index: 0,
        ..p
    }
}

// What an lvalue gives that is at this place, where nothing is read.
fn given(program: &Program, n: u32, p: Pointer) -> Option<Value> {
    match gives_at(program, n) {
        Gives::Place => Some(Value::Points(p)),
        Gives::Array { length, cells } => Some(Value::Points(part_of(p, cells, 0, length))),
        Gives::Value | Gives::Both | Gives::Cells { .. } => None,
    }
}

// What the lasting object gives of a declarator or a string literal, by the lvalue at a node.
fn lasting_value(program: &Program, numbers: &Numbers, n: u32, declarator: u32) -> Option<Value> {
    match lasting_place(numbers, declarator) {
        Some(p) => given(program, n, p),
        None => None,
    }
}

fn name_value(program: &Program, numbers: &Numbers, n: u32) -> Option<Value> {
    match program.names(n) {
        Some(Referent::Constant(z)) => Some(Value::Int(i128::from(z))),
        Some(Referent::Function(f)) => Some(Value::Function(f)),
        Some(Referent::Variable(v)) => match program.variable(v) {
            Some(variable) => lasting_value(program, numbers, n, variable.declarator),
            None => None,
        },
        None => None,
    }
}

fn truth(z: bool) -> Option<Value> {
    Some(Value::Int(i128::from(z)))
}

// The kind of the right operand of an operator that works in this kind: a shift's count keeps its own (C17 6.5.7p3).
fn right_kind(op: IntOp, kind: IntKind, right: IntKind) -> IntKind
    ensures { result ≡ spec.right_kind op kind right }
{
    match op {
        IntOp::Shl | IntOp::Shr => right,
        _ => kind,
    }
}

// The right operand of an operator that works in this kind, converted.
fn right_operand(op: IntOp, kind: IntKind, right: IntKind, b: i128) -> i128
    ensures right { IsRightOperand op kind result }
{
    convert(right_kind(op, kind, right), b)
}

// What the operator gives of two integers, converted to its kinds, where that is defined.
fn applied(op: IntOp, left: IntKind, right: IntKind, a: i128, b: i128) -> Option<Value> {
    let kind = promote(left);
    let b = right_operand(op, kind, right, b);
    match binary(op, kind, convert(kind, a), b) {
        Ok(z) => Some(Value::Int(z)),
        Err(_) => None,
    }
}

fn unary_applied(op: IntUnary, kind: IntKind, a: i128) -> Option<Value> {
    let kind = promote(kind);
    match unary(op, kind, convert(kind, a)) {
        Ok(z) => Some(Value::Int(z)),
        Err(_) => None,
    }
}

fn int_value(program: &Program, constants: &Constants, op: IntOp, a: u32, b: u32) -> Option<Value> {
    match (integer(constants, a), integer(constants, b)) {
        (Some(left), Some(right)) => {
            let (left_kind, right_kind) = kinds(program, op, a, b);
            applied(op, left_kind, right_kind, left, right)
        }
        _ => None,
    }
}

// `&&` (`when` false) or `||` (true): where the left side tells the truth, the right one need have no value
// (C17 6.5.13p4, 6.5.14p4).
fn logical_value(constants: &Constants, when: bool, a: u32, b: u32) -> Option<Value> {
    match (integer(constants, a), integer(constants, b)) {
        (Some(left), _) if (left != 0) == when => truth(when),
        (Some(_), Some(right)) => truth(right != 0),
        _ => None,
    }
}

fn binary_value(
    program: &Program,
    constants: &Constants,
    op: BinaryOp,
    a: u32,
    b: u32,
) -> Option<Value> {
    match op {
        BinaryOp::AndAnd => logical_value(constants, false, a, b),
        BinaryOp::OrOr => logical_value(constants, true, a, b),
        BinaryOp::Int(op) => int_value(program, constants, op, a, b),
    }
}

fn unary_value(program: &Program, constants: &Constants, op: UnaryOp, e: u32) -> Option<Value> {
    match (op, known(constants, e)) {
        (UnaryOp::Address, value) => value,
        (UnaryOp::Int(IntUnary::Not), Some(Value::Int(z))) => truth(z == 0),
        (UnaryOp::Int(op), Some(Value::Int(z))) => unary_applied(op, kind_at(program, e), z),
        _ => None,
    }
}

/// The value as one of another type.
pub(crate) fn changed(to: Conversion, value: Value) -> Value {
    match (to, value) {
        (Conversion::Integer(kind), Value::Int(z)) => Value::Int(convert(kind, z)),
        (Conversion::Pointer, Value::Int(_)) => Value::Null,
        (Conversion::Void, _) => Value::Unwritten,
        _ => value,
    }
}

// The value of the part at `e` as one of the type of the expression at `n`.
fn cast_value(program: &Program, constants: &Constants, n: u32, e: u32) -> Option<Value> {
    match known(constants, e) {
        Some(value) => Some(changed(conversion_at(program, n), value)),
        None => None,
    }
}

// `c ? a : b` at `n`: one branch alone need have a value (C17 6.5.15p4).
fn conditional_value(
    program: &Program,
    constants: &Constants,
    n: u32,
    c: u32,
    a: u32,
    b: u32,
) -> Option<Value> {
    match integer(constants, c) {
        Some(z) => cast_value(program, constants, n, if z == 0 { b } else { a }),
        None => None,
    }
}

fn bytes_of(program: &Program, shape: Shape) -> i128 {
    let structs = &program.known.symbols.structs;
    i128::from(structs.measure(program.types(), shape).size)
}

/// The size of an object of the type of the operand of this `sizeof` (C17 6.5.3.4); 0 of any other node.
pub fn size_at(program: &Program, node: Node) -> i128 {
    match node {
        Node::SizeType(t) => match program.kind_of(t) {
            Some(t) => bytes_of(program, program.types().shape(t)),
            None => 0,
        },
        Node::SizeExpr(e) => match program.type_of(e) {
            Some(ExprType::Plain(shape)) => bytes_of(program, shape),
            Some(ExprType::Address(_)) => POINTER_BYTES,
            None => 0,
        },
        _ => 0,
    }
}

// The member at `n` of the struct at `e`.
fn member_value(program: &Program, constants: &Constants, n: u32, e: u32) -> Option<Value> {
    match (
        known(constants, e),
        program.type_of(e),
        program.member_of(n),
    ) {
        (Some(Value::Points(p)), Some(ExprType::Plain(shape)), Some(k)) => {
            let offset = member_offset(program, shape, k);
            given(program, n, part_of(p, cells_of(program, shape), offset, 1))
        }
        _ => None,
    }
}

// The place of an element, from 0 to the length.
fn element_of(p: Pointer, z: i128) -> Option<Pointer> {
    if z < 0 || i128::from(p.length) < z {
        return None;
    }
    Some(Pointer {
        index: z as u32,
        ..p
    })
}

// The element at `n`, number `i` of the array at `a`.
fn element_value(
    program: &Program,
    constants: &Constants,
    n: u32,
    a: u32,
    i: u32,
) -> Option<Value> {
    match (known(constants, a), integer(constants, i)) {
        (Some(Value::Points(p)), Some(z)) => match element_of(p, z) {
            Some(q) => given(program, n, q),
            None => None,
        },
        _ => None,
    }
}

// The value of the expression at a node, whose parts have theirs.
fn value_of(
    program: &Program,
    numbers: &Numbers,
    constants: &Constants,
    n: u32,
    node: Node,
) -> Option<Value> {
    match node {
        Node::Name => name_value(program, numbers, n),
        Node::Int(z, _) | Node::Char(z) => Some(Value::Int(z)),
        Node::Str(_) => lasting_value(program, numbers, n, n),
        Node::Paren(e) => known(constants, e),
        Node::Unary(op, e) => unary_value(program, constants, op, e),
        Node::Binary(op, a, b) => binary_value(program, constants, op, a, b),
        Node::Cond(c, a, b) => conditional_value(program, constants, n, c, a, b),
        Node::Cast(_, e) => cast_value(program, constants, n, e),
        Node::SizeExpr(_) | Node::SizeType(_) => Some(Value::Int(size_at(program, node))),
        Node::Member(e) => member_value(program, constants, n, e),
        Node::Index(a, i) => element_value(program, constants, n, a, i),
        _ => None,
    }
}

/// The values of all constant expressions: integer constants, addresses of lasting objects and of their parts, functions,
/// null pointers (C17 6.6). Parts have greater numbers than what they are parts of, so the last node is the first.
pub fn constants_of(
    alloc: Global,
    program: &Program,
    numbers: &Numbers,
) -> Result<Constants, Memory> {
    let count = program.occurrences();
    let mut constants = Slots::new(alloc);
    constants.grow(count, None)?;
    for n in (0..count).rev() {
        if let Some(node) = program.node(n) {
            let value = value_of(program, numbers, &constants, n, node);
            constants.put(n, value);
        }
    }
    Ok(constants)
}
