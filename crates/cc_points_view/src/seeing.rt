// What the rules see of an occurrence.
ghost use Rattle.std.specs.Prelude.{◌≡◌, slice_get};
ghost use Rattle.cc_program.specs.Programs as programs;
ghost use Rattle.cc_points_view.specs.Seeing as spec;

use crate::standing::Standing;
use cc_arena::{Node, Span};
use cc_arith::IntOp;
use cc_parts::{Form, Parts};
use cc_points_base::{Class, Seen, What};
use cc_program::{Program, Referent};
use cc_tree::{AssignOp, BinaryOp, UnaryOp};
use cc_types::{ExprType, Shape};

// Whether a value of the type is a pointer: of an array it is.
fn points(kind: Option<ExprType>) -> bool
    ensures { result ≡ spec.points kind }
{
    match kind {
        Some(ExprType::Address(_)) => true,
        Some(ExprType::Plain(Shape::Pointer(_, _)))
        | Some(ExprType::Plain(Shape::Array(_, _, _))) => true,
        _ => false,
    }
}

// The pointers of a struct type.
fn paths_at(paths: &[Option<Span>], id: u32) -> Span
    ensures { result ≡ spec.paths_at paths.now id }
{
    match paths.get(id as usize).copied() {
        Some(Some(span)) => span,
        _ => Span { start: 0, end: 0 },
    }
}

/// What a type is for the rules, where `paths` has the pointers of each struct type.
pub fn class_of(paths: &[Option<Span>], kind: Option<ExprType>) -> Class
    ensures { result ≡ spec.class_of paths.now kind }
{
    match kind {
        Some(ExprType::Address(_)) | Some(ExprType::Plain(Shape::Pointer(_, _))) => Class::Pointer,
        Some(ExprType::Plain(Shape::Array(_, _, _))) => Class::Array,
        Some(ExprType::Plain(Shape::Struct(_, id))) => Class::Struct(id.0, paths_at(paths, id.0)),
        _ => Class::Other,
    }
}

// A name: of a variable the whole object, of a function the target.
fn name(parts: &Parts, named: Option<Referent>) -> What
    ensures { result ≡ spec.name parts.now named }
{
    match named {
        Some(Referent::Variable(v)) => match parts.object_at(v.0) {
            Some(object) => What::Name(object.first),
            None => What::Other,
        },
        Some(Referent::Function(f)) => function(parts.count(), f.0),
        _ => What::Other,
    }
}

// The function of this number, behind so many parts.
fn function(count: u32, f: u32) -> What
    ensures { result ≡ spec.function count f }
{
    if f <= u32::MAX - count {
        What::Designator(count + f)
    } else {
        What::Other
    }
}

// What hands the value of its pointer operand on, if it is a pointer itself.
fn offset(program: &Program, n: u32, operand: u32) -> What
    ensures { result ≡ spec.offset program.now n operand }
{
    if points(program.type_of(n)) {
        What::Offset(operand)
    } else {
        What::Other
    }
}

// Of two operands the one that is a pointer.
fn pointer_of(program: &Program, a: u32, b: u32) -> u32
    ensures { result ≡ spec.pointer_of program.now a b }
{
    if points(program.type_of(a)) { a } else { b }
}

fn is_sum(op: BinaryOp) -> bool
    ensures { result ≡ spec.is_sum op }
{
    matches!(op, BinaryOp::Int(IntOp::Add) | BinaryOp::Int(IntOp::Sub))
}

fn binary(program: &Program, n: u32, op: BinaryOp, a: u32, b: u32) -> What
    ensures { result ≡ spec.binary program.now n op a b }
{
    if is_sum(op) {
        offset(program, n, pointer_of(program, a, b))
    } else {
        What::Other
    }
}

fn assigned(program: &Program, n: u32, op: AssignOp, a: u32, b: u32) -> What
    ensures { result ≡ spec.assigned program.now n op a b }
{
    match op {
        AssignOp::Plain => What::Assign(a, b),
        _ => offset(program, n, a),
    }
}

fn unary(op: UnaryOp, e: u32) -> What
    ensures { result ≡ spec.unary op e }
{
    match op {
        UnaryOp::Address => What::Address(e),
        UnaryOp::Deref => What::Deref(e),
        UnaryOp::Int(_) => What::Other,
    }
}

fn member(e: u32, m: Option<u32>) -> What
    ensures { result ≡ spec.member e m }
{
    match m {
        Some(m) => What::Member(e, m),
        None => What::Other,
    }
}

fn arrow(e: u32, m: Option<u32>) -> What
    ensures { result ≡ spec.arrow e m }
{
    match m {
        Some(m) => What::Arrow(e, m),
        None => What::Other,
    }
}

fn returned(function: Option<u32>, e: Option<u32>) -> What
    ensures { result ≡ spec.returned function e }
{
    match (function, e) {
        (Some(i), Some(e)) => What::Return(i, e),
        _ => What::Other,
    }
}

/// What the rules see of the node `n` that is evaluated and stands in this function. If it is a string literal, `literal` is
/// its whole object.
pub fn what_of(
    program: &Program,
    parts: &Parts,
    literal: u32,
    n: u32,
    node: Node,
    function: Option<u32>,
) -> What
    ensures { result ≡ spec.what_of program.now parts.now literal n node function }
{
    match node {
        Node::Name => name(parts, program.names(n)),
        Node::Str(_) => What::Name(literal),
        Node::Paren(e) => What::Paren(e),
        Node::Unary(op, e) => unary(op, e),
        Node::Binary(op, a, b) => binary(program, n, op, a, b),
        Node::Assign(op, a, b) => assigned(program, n, op, a, b),
        Node::Step(_, _, e) => offset(program, n, e),
        Node::Cond(_, a, b) => What::Cond(a, b),
        Node::Comma(_, b) => What::Comma(b),
        Node::Call(f, args) => What::Call(f, args),
        Node::Member(e) => member(e, program.member_of(n)),
        Node::Arrow(e) => arrow(e, program.member_of(n)),
        Node::Index(a, b) => What::Index(pointer_of(program, a, b)),
        Node::Return(e) => returned(function, e),
        _ => What::Other,
    }
}

// Whether it is an lvalue without parentheses.
fn is_lvalue(what: What) -> bool
    ensures { result ≡ spec.is_lvalue what }
{
    match what {
        What::Name(_) | What::Deref(_) | What::Index(_) | What::Member(_, _) | What::Arrow(_, _) =>
            true,
        _ => false,
    }
}

// Whether a part that is initialised is an array: then a string literal that initialises it isn't used as a value.
fn is_array(parts: &Parts, cell: Option<u32>) -> bool
    ensures { result ≡ spec.is_array parts.now cell }
{
    match cell {
        Some(cell) => match parts.part_at(cell) {
            Some(part) => matches!(part.form, Form::Array),
            None => false,
        },
        None => false,
    }
}

// An occurrence of which no rule speaks.
fn unseen() -> Seen
    ensures { result ≡ spec.unseen }
{
    Seen {
        what: What::Other,
        class: Class::Other,
        used: false,
    }
}

/// What the rules see of the node `n`, which is `what` for the rules if it is evaluated, and of which the surroundings say
/// whether it is used as a value.
pub fn seen_of(parts: &Parts, standing: Standing, is_value: bool, what: What, class: Class) -> Seen
    ensures { result ≡ spec.seen_of parts.now standing is_value what class }
{
    if standing.is_evaluated {
        Seen {
            what,
            class,
            used: is_value && is_lvalue(what) && !is_array(parts, standing.cell),
        }
    } else {
        unseen()
    }
}
