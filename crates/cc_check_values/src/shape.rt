// The shape of initialisers.
ghost use Rattle.std.specs.Prelude.{◌≡◌, is_some, slice_get};
ghost use Rattle.cc_tree.specs.Views.{view, view_value, values_of};
ghost use Rattle.cc_types.specs.Interning.{shape_of};
ghost use Rattle.cc_check_values.specs.Shaping as spec;

use crate::length::{is_character, string_length};
use crate::scalar::{check_lone, check_scalar};
use crate::typed::{misshapen, misshapen_single};
use cc_base::Bytes;
use cc_symbols::{Findings, Life, Symbols};
use cc_tree::{Expr, Value};
use cc_tree_notes::Counted;
use cc_types::{Member, Shape, TypeId};

/// What a list in braces does for what it initialises.
#[derive(Clone, Copy)]
pub(crate) enum ListKind {
    /// It is `{0}`, and the first part is no scalar: it begins the whole by zeros.
    Zeros,
    /// It begins the parts.
    Parts,
    /// It is for a scalar.
    Lone,
    /// It can't stand there.
    Misfit,
}

// Whether it is the integer constant token of value 0.
fn is_zero_token(v: &Value<Counted>) -> bool
    ensures { result ≡ spec.is_zero_token (view_value v.now) }
{
    match v {
        Value::Expr(Expr::Int(_, value, _)) => *value == 0,
        _ => false,
    }
}

// Whether there is none but the first, which is the integer constant token of value 0.
fn is_lone_zero(vs: &[Value<Counted>]) -> bool
    ensures { result ≡ spec.is_lone_zero 0 (values_of vs.now) }
{
    for (number, v) in vs.iter().enumerate() {
        if number > 0 || !is_zero_token(v) {
            return false;
        }
    }
    true
}

// Whether a string literal fits an array of this length, its final zero aside.
fn fits_string(length: Option<u64>, parts: &[Bytes]) -> bool
    ensures { result ≡ spec.fits_string length parts.now }
{
    match length {
        Some(length) => string_length(parts) <= length,
        None => true,
    }
}

// Whether an array of this length has an element of this number.
fn has_element(length: Option<u64>, number: usize) -> bool
    ensures { result ≡ spec.has_element length number }
{
    match length {
        Some(length) => (number as u64) < length,
        None => true,
    }
}

// Whether there is a member of this number.
fn has_member(members: &[Member], number: usize) -> bool
    ensures { result ≡ is_some (slice_get members.now number) }
{
    number < members.len()
}

// The type of the member of this number; void where there is none.
fn member_kind(symbols: &Symbols, members: &[Member], number: usize) -> Shape
    ensures { result ≡ spec.kind_of_member symbols.now (slice_get members.now number) }
{
    if number < members.len() {
        symbols.types.shape(members[number].kind)
    } else {
        Shape::Void(false)
    }
}

// Whether an array or struct has a part of this number.
fn has_part(symbols: &Symbols, a: Shape, number: usize) -> bool
    ensures { result ≡ spec.has_part symbols.now a number }
{
    match a {
        Shape::Array(_, _, length) => has_element(length, number),
        Shape::Struct(_, id) => has_member(symbols.structs.members(id), number),
        _ => false,
    }
}

// The type of that part; void where there is none.
fn part_at(symbols: &Symbols, a: Shape, number: usize) -> Shape
    ensures { result ≡ spec.part_at symbols.now a number }
{
    match a {
        Shape::Array(_, element, _) => symbols.types.shape(element),
        Shape::Struct(_, id) => member_kind(symbols, symbols.structs.members(id), number),
        _ => Shape::Void(false),
    }
}

fn is_scalar_shape(a: Shape) -> bool
    ensures { result ≡ spec.is_scalar_shape a }
{
    matches!(a, Shape::Integer(_, _) | Shape::Pointer(_, _))
}

fn has_parts(a: Shape) -> bool
    ensures { result ≡ spec.has_parts a }
{
    matches!(a, Shape::Array(_, _, _) | Shape::Struct(_, _))
}

// Whether these in braces are `{0}` over an array or struct whose first part is no scalar: it begins the first scalar by 0,
// which fits every scalar.
fn is_whole_zero(symbols: &Symbols, a: Shape, vs: &[Value<Counted>]) -> bool
    ensures { result ≡ spec.is_whole_zero symbols.now a (values_of vs.now) }
{
    is_lone_zero(vs) && !is_scalar_shape(part_at(symbols, a, 0))
}

fn aggregate_kind(is_zero: bool) -> ListKind
    ensures { result ≡ spec.aggregate_kind is_zero }
{
    if is_zero {
        ListKind::Zeros
    } else {
        ListKind::Parts
    }
}

fn list_kind(symbols: &Symbols, a: Shape, vs: &[Value<Counted>]) -> ListKind
    ensures { result ≡ spec.list_kind symbols.now a (values_of vs.now) }
{
    if has_parts(a) {
        aggregate_kind(is_whole_zero(symbols, a, vs))
    } else if is_scalar_shape(a) {
        ListKind::Lone
    } else {
        ListKind::Misfit
    }
}

// Whether it is a string literal for an array of such elements and this length.
fn is_string_for(element: Shape, length: Option<u64>, e: &Expr<Counted>) -> bool
    ensures { result ≡ spec.is_string_for element length (view e.now) }
{
    match e {
        Expr::Str(_, parts) => is_character(element) && fits_string(length, parts.as_slice()),
        _ => false,
    }
}

// Of an expression without braces, for an array of such elements and this length.
fn check_array_single(
    symbols: &Symbols,
    found: &mut Findings,
    element: TypeId,
    length: Option<u64>,
    e: &Expr<Counted>,
)
    ensures { found.new ≡ spec.string_checked (shape_of symbols.now.types element) length (view e.now) found.old }
{
    if !is_string_for(symbols.types.shape(element), length, e) {
        misshapen_single(found, e);
    }
}

// Of an expression without braces.
fn check_single(
    symbols: &Symbols,
    found: &mut Findings,
    life: Life,
    target: Shape,
    e: &Expr<Counted>,
)
    ensures { found.new ≡ spec.single_checked symbols.now life target (view e.now) found.old }
{
    match target {
        Shape::Integer(_, _) | Shape::Pointer(_, _) => {
            check_scalar(symbols, found, life, target, e)
        }
        Shape::Array(_, element, length) => check_array_single(symbols, found, element, length, e),
        _ => misshapen_single(found, e),
    }
}

/// C25 to C27 and C38 of an initialiser of an object of this type and life, or of a part of one, whose expressions are
/// judged: each scalar has one expression that fits, an array or struct a list of at most its parts, and an array of
/// characters may have a string literal. The places are those of the parts that are wrong.
#[cycle(value)]
pub fn check_value(
    symbols: &Symbols,
    found: &mut Findings,
    life: Life,
    target: Shape,
    v: &Value<Counted>,
)
    ensures { found.new ≡ spec.value_checked symbols.now life target (view_value v.now) found.old }
{
    match v {
        Value::Expr(e) => check_single(symbols, found, life, target, e),
        Value::List(_, vs, _) => match list_kind(symbols, target, vs.as_slice()) {
            ListKind::Zeros => {}
            ListKind::Parts => check_parts(symbols, found, life, target, vs.as_slice()),
            ListKind::Lone => check_lone(symbols, found, life, target, v, vs.as_slice()),
            ListKind::Misfit => misshapen(found, v),
        },
    }
}

// Of the parts of an array or struct, in order; what has no part is too much.
#[cycle(value)]
fn check_parts(
    symbols: &Symbols,
    found: &mut Findings,
    life: Life,
    target: Shape,
    vs: &[Value<Counted>],
)
    ensures { found.new ≡ spec.parts_checked symbols.now life target 0 (values_of vs.now) found.old }
{
    for (number, v) in vs.iter().enumerate() {
        if has_part(symbols, target, number) {
            check_value(symbols, found, life, part_at(symbols, target, number), v);
        } else {
            misshapen(found, v);
        }
    }
}
