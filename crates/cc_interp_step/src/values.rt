// Operators and conversions on values.
ghost use Rattle.std.specs.Prelude.{◌≡◌, ◌<◌, ◌+◌, ◌*◌, ◌^◌, IfOk, int_lt, pos, unsigned_abs};
ghost use Rattle.cc_arith.specs.Conversions.{converted, is_zero};
ghost use Rattle.cc_acts.specs.declared.state.State.{State};
ghost use Rattle.cc_acts.specs.declared.stop.Stop.{Stop};
ghost use Rattle.cc_store.specs.declared.value.Value.{Value};
ghost use Rattle.cc_acts.specs.Parts as part;
ghost use Rattle.cc_acts.specs.Values as spec;
ghost use Rattle.cc_interp_step.specs.Progress.{given};

use cc_acts::{Conversion, Operator, State, Stop};
use cc_arith::{ArithUndef, IntKind, IntOp, IntUnary, binary, convert, promote, unary};
use cc_base::Memory;
use cc_meaning::{Cell, Undef};
use cc_store::{Pointer, Value};

// The cell that a pointer to a scalar points to.
pub fn cell(p: Pointer) -> Cell
    requires { p.base + p.index < 2 ^ 32 }
    ensures { result ≡ part.cell_of p }
{
    Cell {
        object: p.object,
        instance: p.instance,
        index: p.base + p.index,
    }
}

fn undef_of(why: ArithUndef) -> Undef
    ensures { result ≡ spec.undefined_by why }
{
    match why {
        ArithUndef::Overflow => Undef::Overflow,
        ArithUndef::ZeroDivisor => Undef::ZeroDivisor,
        ArithUndef::ShiftCount => Undef::ShiftCount,
        ArithUndef::ShiftNegative => Undef::ShiftNegative,
    }
}

fn right_kind(op: IntOp, left: IntKind, right: IntKind) -> IntKind
    ensures { result ≡ spec.right_kind op left right }
{
    match op {
        IntOp::Shl | IntOp::Shr => right,
        _ => promote(left),
    }
}

// What the operator gives of two integers, converted to its kinds.
fn apply(op: IntOp, left: IntKind, right: IntKind, a: i128, b: i128) -> Result<i128, Undef>
    ensures { result ≡ spec.applied op left right a b }
{
    let kind = promote(left);
    let b = convert(right_kind(op, left, right), b);
    match binary(op, kind, convert(kind, a), b) {
        Ok(z) => Ok(z),
        Err(why) => Err(undef_of(why)),
    }
}

// What the operator gives of an integer, converted to its kind.
fn apply_unary(op: IntUnary, kind: IntKind, a: i128) -> Result<i128, Undef>
    ensures { result ≡ spec.unary_applied op kind a }
{
    let kind = promote(kind);
    match unary(op, kind, convert(kind, a)) {
        Ok(z) => Ok(z),
        Err(why) => Err(undef_of(why)),
    }
}

fn up_by(p: Pointer, n: u128) -> Option<Pointer>
    ensures { result ≡ spec.up p n }
{
    if p.index > p.length || n > u128::from(p.length - p.index) {
        return None;
    }
    Some(Pointer {
        index: p.index + n as u32,
        ..p
    })
}

fn down_by(p: Pointer, n: u128) -> Option<Pointer>
    ensures { result ≡ spec.down p n }
{
    if n > u128::from(p.index) {
        return None;
    }
    Some(Pointer {
        index: p.index - n as u32,
        ..p
    })
}

fn is_below_zero(z: i128) -> bool
    ensures { result ≡ int_lt z (pos 0) }
{
    z < 0
}

fn size_of(z: i128) -> u128
    ensures { result ≡ unsigned_abs z }
{
    z.unsigned_abs()
}

// Whether it is 0.
fn is_nothing(z: i128) -> bool
    ensures { result ≡ is_zero z }
{
    z == 0
}

fn moved(p: Pointer, by: i128) -> Option<Pointer>
    ensures { result ≡ spec.moved p by }
{
    let n = size_of(by);
    if is_below_zero(by) {
        down_by(p, n)
    } else {
        up_by(p, n)
    }
}

fn moved_back(p: Pointer, by: i128) -> Option<Pointer>
    ensures { result ≡ spec.moved_back p by }
{
    let n = size_of(by);
    if is_below_zero(by) {
        up_by(p, n)
    } else {
        down_by(p, n)
    }
}

// The pointer that was moved, if its object lives and its array has the element.
fn moved_or_stop(state: &State, occ: u32, p: Pointer, moved: Option<Pointer>) -> Result<Value, Stop>
    ensures { given result state.now ≡ part.moved_if (part.lives p state.now) occ moved state.now }
{
    if !state.store.lives(p) {
        return Err(undefined(occ, Undef::Ended));
    }
    match moved {
        Some(p) => Ok(Value::Points(p)),
        None => Err(undefined(occ, Undef::OutOfArray)),
    }
}

/// The run stops at this node.
pub fn undefined(at: u32, kind: Undef) -> Stop
    ensures { result ≡ Stop.Undefined at kind }
{
    Stop::Undefined { at, kind }
}

// The pointer this many elements on.
fn offset(state: &State, occ: u32, by: i128, value: Value) -> Result<Value, Stop>
    ensures { given result state.now ≡ part.offset occ by value state.now }
{
    match value {
        Value::Points(p) => moved_or_stop(state, occ, p, moved(p, by)),
        Value::Null => {
            if is_nothing(by) {
                Ok(Value::Null)
            } else {
                Err(undefined(occ, Undef::NullArithmetic))
            }
        }
        Value::Unwritten | Value::Int(_) | Value::Function(_) => Err(Stop::Lost),
    }
}

// The pointer this many elements back.
fn offset_back(state: &State, occ: u32, by: i128, value: Value) -> Result<Value, Stop>
    ensures { given result state.now ≡ part.offset_back occ by value state.now }
{
    match value {
        Value::Points(p) => moved_or_stop(state, occ, p, moved_back(p, by)),
        Value::Null => Err(undefined(occ, Undef::NullArithmetic)),
        Value::Unwritten | Value::Int(_) | Value::Function(_) => Err(Stop::Lost),
    }
}

// A pointer and an integer are added, in either order.
pub fn plus(state: &State, occ: u32, a: Value, b: Value) -> Result<Value, Stop>
    ensures { given result state.now ≡ part.plus occ a b state.now }
{
    match a {
        Value::Int(by) => offset(state, occ, by, b),
        Value::Unwritten | Value::Null | Value::Function(_) | Value::Points(_) => match b {
            Value::Int(by) => offset(state, occ, by, a),
            Value::Unwritten | Value::Null | Value::Function(_) | Value::Points(_) => Err(
                Stop::Lost,
            ),
        },
    }
}

fn minus(state: &State, occ: u32, a: Value, b: Value) -> Result<Value, Stop>
    ensures { given result state.now ≡ part.minus occ a b state.now }
{
    match b {
        Value::Int(by) => offset_back(state, occ, by, a),
        Value::Unwritten | Value::Null | Value::Function(_) | Value::Points(_) => Err(Stop::Lost),
    }
}

fn int_or_stop(occ: u32, number: Result<i128, Undef>) -> Result<Value, Stop>
    ensures { (s : State) → given result s ≡ part.int_or_stop occ number s }
{
    match number {
        Ok(z) => Ok(Value::Int(z)),
        Err(kind) => Err(undefined(occ, kind)),
    }
}

fn integers(
    occ: u32,
    op: IntOp,
    left: IntKind,
    right: IntKind,
    a: Value,
    b: Value,
) -> Result<Value, Stop>
    ensures { (s : State) → given result s ≡ part.integers occ op left right a b s }
{
    match (a, b) {
        (Value::Int(a), Value::Int(b)) => int_or_stop(occ, apply(op, left, right, a, b)),
        _ => Err(Stop::Lost),
    }
}

// Whether they point into one array.
fn is_one_array(p: Pointer, q: Pointer) -> bool
    ensures { result ≡ spec.is_one_array p q }
{
    p.instance == q.instance && (p.base == q.base && p.length == q.length)
}

// The operator on the numbers of the elements of one array.
fn in_one_array(state: &State, occ: u32, op: IntOp, p: Pointer, q: Pointer) -> Result<Value, Stop>
    ensures { given result state.now ≡ part.elements occ op (Value.Points p) (Value.Points q) state.now }
{
    if !(state.store.lives(p) && state.store.lives(q)) {
        return Err(undefined(occ, Undef::Ended));
    }
    if !is_one_array(p, q) {
        return Err(undefined(occ, Undef::OtherArray));
    }
    let number = apply(
        op,
        IntKind::Long,
        IntKind::Long,
        i128::from(p.index),
        i128::from(q.index),
    );
    int_or_stop(occ, number)
}

// A null pointer has no elements; one into an ended object is named first.
fn with_null(state: &State, occ: u32, p: Pointer) -> Result<Value, Stop>
    ensures { given result state.now ≡ part.null_with (part.lives p state.now) occ state.now }
{
    if state.store.lives(p) {
        Err(undefined(occ, Undef::NullArithmetic))
    } else {
        Err(undefined(occ, Undef::Ended))
    }
}

fn elements(state: &State, occ: u32, op: IntOp, a: Value, b: Value) -> Result<Value, Stop>
    ensures { given result state.now ≡ part.elements occ op a b state.now }
{
    match (a, b) {
        (Value::Points(p), Value::Points(q)) => in_one_array(state, occ, op, p, q),
        (Value::Points(p), Value::Null) => with_null(state, occ, p),
        (Value::Null, Value::Points(q)) => with_null(state, occ, q),
        (Value::Null, Value::Null) => Err(undefined(occ, Undef::NullArithmetic)),
        _ => Err(Stop::Lost),
    }
}

// The cell of an object at which a pointer's element begins.
fn first_cell(p: Pointer, cells: u32) -> u64
    ensures { result ≡ p.base + p.index * cells }
{
    u64::from(p.base) + u64::from(p.index) * u64::from(cells)
}

fn null_for(value: Value) -> Value
    ensures { result ≡ spec.null_for value }
{
    match value {
        Value::Int(_) => Value::Null,
        Value::Unwritten | Value::Null | Value::Function(_) | Value::Points(_) => value,
    }
}

fn is_equal_to(cells: u32, a: Value, b: Value) -> bool
    ensures { result ≡ spec.is_equal_to cells a b }
{
    match (a, b) {
        (Value::Points(p), Value::Points(q)) => p.instance == q.instance
            && first_cell(p, cells) == first_cell(q, cells),
        (Value::Function(f), Value::Function(g)) => f.0 == g.0,
        (Value::Null, Value::Null) => true,
        _ => false,
    }
}

fn equality(is_equal: bool, cells: u32, a: Value, b: Value) -> Value
    ensures { result ≡ part.equality is_equal cells a b }
{
    let equal = is_equal_to(cells, null_for(a), null_for(b));
    if is_equal {
        of_truth(equal)
    } else {
        of_truth(!equal)
    }
}

/// 1 or 0.
pub fn of_truth(truth: bool) -> Value
    ensures { result ≡ spec.of_truth truth }
{
    if truth { Value::Int(1) } else { Value::Int(0) }
}

/// A binary operator.
pub fn operate(
    state: &State,
    occ: u32,
    operator: Operator,
    a: Value,
    b: Value,
) -> Result<Value, Stop>
    ensures { given result state.now ≡ part.operate occ operator a b state.now }
{
    match operator {
        Operator::Integers { op, left, right } => integers(occ, op, left, right, a, b),
        Operator::Plus => plus(state, occ, a, b),
        Operator::Minus => minus(state, occ, a, b),
        Operator::Elements { op } => elements(state, occ, op, a, b),
        Operator::Equality { is_equal, cells } => Ok(equality(is_equal, cells, a, b)),
    }
}

/// `+`, `-`, `~` of an integer.
pub fn operate_unary(occ: u32, op: IntUnary, kind: IntKind, value: Value) -> Result<Value, Stop>
    ensures { (s : State) → given result s ≡ part.unary occ op kind value s }
{
    match value {
        Value::Int(a) => int_or_stop(occ, apply_unary(op, kind, a)),
        Value::Unwritten | Value::Null | Value::Function(_) | Value::Points(_) => Err(Stop::Lost),
    }
}

/// An integer of the kind.
pub fn integer(kind: IntKind, z: i128) -> Value
    ensures { result ≡ Value.Int (converted kind z) }
{
    Value::Int(convert(kind, z))
}

/// The value as one of another type.
pub fn change(to: Conversion, value: Value) -> Option<Value>
    ensures { result ≡ spec.change to value }
{
    match (to, value) {
        (Conversion::Integer(kind), Value::Int(z)) => Some(integer(kind, z)),
        (Conversion::Pointer, Value::Int(_)) => Some(Value::Null),
        (Conversion::Pointer, Value::Null | Value::Function(_) | Value::Points(_)) => Some(value),
        (Conversion::Void, _) => Some(Value::Unwritten),
        _ => None,
    }
}

/// Whether the value counts as true.
pub fn is_true(value: Value) -> Option<bool>
    ensures { result ≡ spec.truth value }
{
    match value {
        Value::Int(z) => Some(!is_nothing(z)),
        Value::Null => Some(false),
        Value::Points(_) | Value::Function(_) => Some(true),
        Value::Unwritten => None,
    }
}

/// The pointer to a part of its element that begins at the offset and is an array of this many elements. Its own elements
/// have so many cells.
pub fn part_of(p: Pointer, cells: u32, offset: u32, length: u32) -> Result<Pointer, Memory>
    ensures { IfOk result (λ q. q ≡ spec.part_of p cells offset length) }
{
    let first = first_cell(p, cells);
    if first > u64::from(u32::MAX - offset) {
        return Err(Memory);
    }
    Ok(Pointer {
        base: first as u32 + offset,
        length,
        index: 0,
        ..p
    })
}

/// The pointer to cell `k` after the one that it points to.
pub fn cell_on(p: Pointer, k: u32) -> Pointer
    requires { p.base + k < 2 ^ 32 }
    ensures { result ≡ spec.cell_on p k }
{
    Pointer {
        base: p.base + k,
        length: 1,
        index: 0,
        ..p
    }
}
