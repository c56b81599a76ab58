// What acts ask of types.
ghost use Rattle.std.specs.Prelude.{◌≡◌};
ghost use Rattle.cc_layout.specs.Conversions as conversions;
ghost use Rattle.cc_layout.specs.Functions as functions;
ghost use Rattle.cc_layout.specs.Sizes as sizes;
ghost use Rattle.cc_layout.specs.Values as values;

use crate::counts::narrowed;
use cc_acts::Conversion;
use cc_arith::{IntKind, common};
use cc_program::Program;
use cc_types::{ExprType, Member, Shape};

/// How many cells an object of this type has, one for each scalar in it; none where the type is incomplete or no object type.
pub fn cells_of(program: &Program, shape: Shape) -> u32
    ensures { result ≡ sizes.cells_of program.now shape }
{
    let structs = &program.known.symbols.structs;
    narrowed(structs.measure(program.types(), shape).cells)
}

/// How a value becomes one of this type.
pub fn conversion_to(shape: Shape) -> Conversion
    ensures { result ≡ conversions.conversion_to shape }
{
    match shape {
        Shape::Integer(_, kind) => Conversion::Integer(kind),
        Shape::Void(_) | Shape::Struct(_, _) => Conversion::Void,
        Shape::Pointer(_, _) | Shape::Array(_, _, _) => Conversion::Pointer,
        Shape::Function(_) | Shape::Takes(_, _) => Conversion::Pointer,
    }
}

/// How a value becomes one of the type of the expression at a node.
pub fn conversion_at(program: &Program, n: u32) -> Conversion
    ensures { result ≡ conversions.conversion_at program.now n }
{
    match program.type_of(n) {
        Some(ExprType::Plain(shape)) => conversion_to(shape),
        Some(ExprType::Address(_)) => Conversion::Pointer,
        None => Conversion::Void,
    }
}

/// The type of the expression at a node as that of a value: arrays and functions are pointers (C17 6.3.2.1).
pub(crate) fn value_at(program: &Program, n: u32) -> Option<ExprType>
    ensures { result ≡ values.value_at program.now n }
{
    match program.type_of(n) {
        Some(t) => Some(program.types().value(t)),
        None => None,
    }
}

/// The kind of the expression at a node; `int` where it is no integer.
pub fn kind_at(program: &Program, n: u32) -> IntKind
    ensures { result ≡ values.kind_at program.now n }
{
    match value_at(program, n) {
        Some(t) => program.types().kind(t).unwrap_or(IntKind::Int),
        None => IntKind::Int,
    }
}

/// The kind in which an operator works on two expressions (C17 6.3.1.8).
pub(crate) fn common_at(program: &Program, a: u32, b: u32) -> IntKind
    ensures { result ≡ values.common_at program.now a b }
{
    common(kind_at(program, a), kind_at(program, b))
}

/// Whether the expression at a node is a pointer, as a value.
pub(crate) fn is_pointer_at(program: &Program, n: u32) -> bool
    ensures { result ≡ values.is_pointer_at program.now n }
{
    match value_at(program, n) {
        Some(t) => program.types().is_pointer(t),
        None => false,
    }
}

/// What the expression at a node points to, as a value.
pub fn pointee_at(program: &Program, n: u32) -> Option<Shape>
    ensures { result ≡ values.pointee_at program.now n }
{
    match value_at(program, n) {
        Some(t) => program.types().pointee(t),
        None => None,
    }
}

/// How many cells each element has of the array into which the expression at a node points. An array without a length can
/// only be pointed to as a whole, as by `&a`: it counts as one cell.
pub(crate) fn element_cells(program: &Program, n: u32) -> u32
    ensures { result ≡ values.element_cells program.now n }
{
    match pointee_at(program, n) {
        Some(shape) => cells_of(program, shape).max(1),
        None => 1,
    }
}

// How many cells these members have, up to before number `k`.
fn cells_before(program: &Program, members: &[Member], k: u32) -> u32
    ensures { result ≡ sizes.cells_before program.now 0 members.now k }
{
    let mut cells: u32 = 0;
    let mut left = k;
    for member in members {
        if left == 0 {
            return cells;
        }
        left -= 1;
        cells = cells.saturating_add(cells_of(program, program.types().shape(member.kind)));
    }
    cells
}

/// The cell of a struct at which its member number `k` begins, from 0.
pub fn member_offset(program: &Program, shape: Shape, k: u32) -> u32
    ensures { result ≡ sizes.member_offset program.now shape k }
{
    match shape {
        Shape::Struct(_, id) => cells_before(program, program.members(id), k),
        _ => 0,
    }
}

// What is left of a function type behind its first parameter.
fn behind_one(program: &Program, function: Shape) -> Option<Shape>
    ensures { result ≡ functions.behind_one program.now.known.symbols.types function }
{
    match function {
        Shape::Takes(_, rest) => Some(program.types().shape(rest)),
        _ => None,
    }
}

// What is left of a function type behind its first parameters.
#[tactic(auto, using(crate::proofs::Behind::behind_step, crate::proofs::Behind::behind_stop, crate::proofs::Behind::behind_end))]
fn behind(program: &Program, function: Shape, parameters: usize) -> Option<Shape>
    ensures { result ≡ functions.behind program.now.known.symbols.types parameters function }
{
    let mut left = function;
    for _ in 0..parameters {
        match behind_one(program, left) {
            Some(rest) => left = rest,
            None => return None,
        }
    }
    Some(left)
}

/// The type of parameter number `k` of a function type, from 0.
pub fn parameter_of(program: &Program, function: Shape, k: usize) -> Option<Shape>
    ensures { result ≡ functions.parameter_of program.now.known.symbols.types function k }
{
    match behind(program, function, k) {
        Some(Shape::Takes(parameter, _)) => Some(program.types().shape(parameter)),
        _ => None,
    }
}

/// The type of the result of a function type with so many parameters.
pub fn result_of(program: &Program, function: Shape, parameters: usize) -> Option<Shape>
    ensures { result ≡ functions.result_of program.now.known.symbols.types function parameters }
{
    match behind(program, function, parameters) {
        Some(Shape::Function(result)) => Some(program.types().shape(result)),
        _ => None,
    }
}
