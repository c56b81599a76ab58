// What a node has from the node that it is a part of: one function for each field of `Around`. `above` is the node of which it
// is a part, `n` its own number, `own` what `above` itself has.
ghost use Rattle.std.specs.Prelude.{◌≡◌};
ghost use Rattle.cc_arena_rules.specs.Looks.{type_at, node_at};
ghost use Rattle.cc_arena_rules.specs.Below as spec;

use crate::around::{Extent, Standing};
use crate::look::{inside, is_at, is_automatic, is_one_struct, type_at};
use cc_arena::{Arena, Node};
use cc_arith::IntOp;
use cc_symbols::{Findings, Symbols};
use cc_tree::{AssignOp, BinaryOp, UnaryOp};
use cc_types::ExprType;

// Whether a `break` has something to leave.
pub(crate) fn may_break(above: Node, own: bool) -> bool
    ensures { result ≡ spec.may_break above own }
{
    match above {
        Node::While(_, _) | Node::Do(_, _) | Node::For(_, _, _, _) | Node::Switch(_, _) => true,
        _ => own,
    }
}

// Whether a `continue` has a loop to go on with.
pub(crate) fn may_continue(above: Node, own: bool) -> bool
    ensures { result ≡ spec.may_continue above own }
{
    match above {
        Node::While(_, _) | Node::Do(_, _) | Node::For(_, _, _, _) => true,
        _ => own,
    }
}

pub(crate) fn standing_in(above: Node, n: u32, own: Standing) -> Standing
    ensures { result ≡ spec.standing_in above n own }
{
    match above {
        Node::Plain(_) => Standing::Statement,
        Node::For(first, _, third, _) => {
            if is_at(first, n) || is_at(third, n) {
                Standing::Clause
            } else {
                Standing::Inside
            }
        }
        Node::Paren(_) => wrapped(own),
        Node::Comma(_, _) => operand(own),
        _ => Standing::Inside,
    }
}

fn wrapped(own: Standing) -> Standing
    ensures { result ≡ spec.wrapped own }
{
    match own {
        Standing::Clause => Standing::WrappedClause,
        _ => own,
    }
}

fn operand(own: Standing) -> Standing
    ensures { result ≡ spec.operand own }
{
    match own {
        Standing::Statement => Standing::Inside,
        _ => own,
    }
}

// The full expression that the node `n`, which is `what`, stands in; `up` is the number of `above`.
pub(crate) fn extent_in(
    symbols: &Symbols,
    above: Node,
    up: u32,
    what: Node,
    n: u32,
    own: Extent,
) -> Extent
    ensures { result ≡ spec.extent_in symbols.now above up what n own }
{
    match above {
        Node::Plain(_) | Node::Return(_) => Extent::Expression(n),
        Node::If(e, _) | Node::IfElse(e, _, _) | Node::While(e, _) => condition(e, n),
        Node::Switch(e, _) | Node::Do(_, e) => condition(e, n),
        Node::For(first, second, third, _) => {
            if is_at(first, n) || is_at(second, n) || is_at(third, n) {
                clause(what, n)
            } else {
                Extent::Nowhere
            }
        }
        Node::Declared(_) => {
            if is_automatic(symbols, up) {
                initialiser(what, n)
            } else {
                Extent::Nowhere
            }
        }
        Node::Braces(_) => element(what, n, own),
        Node::Block(_) | Node::Declaration(_) | Node::Definition(_, _) => Extent::Nowhere,
        Node::Case(_) => Extent::Nowhere,
        _ => own,
    }
}

// A condition is a full expression, a statement beside it none.
fn condition(e: u32, n: u32) -> Extent
    ensures { result ≡ spec.condition e n }
{
    if e == n {
        Extent::Expression(n)
    } else {
        Extent::Nowhere
    }
}

fn clause(what: Node, n: u32) -> Extent
    ensures { result ≡ spec.clause what n }
{
    match what {
        Node::Declaration(_) => Extent::Nowhere,
        _ => Extent::Expression(n),
    }
}

fn initialiser(what: Node, n: u32) -> Extent
    ensures { result ≡ spec.initialiser what n }
{
    match what {
        Node::Braces(_) => Extent::Initialiser,
        _ => Extent::Expression(n),
    }
}

fn element(what: Node, n: u32, own: Extent) -> Extent
    ensures { result ≡ spec.element what n own }
{
    match own {
        Extent::Initialiser => initialiser(what, n),
        _ => own,
    }
}

// Whether it is used as a value, if it is an lvalue (C17 6.3.2.1). A copy of a struct reads its right side in its own way.
pub(crate) fn is_value(found: &Findings, above: Node, n: u32, own: bool) -> bool
    ensures { result ≡ spec.is_value found.now above n own }
{
    match above {
        Node::Paren(_) => own,
        Node::Unary(UnaryOp::Address, _) | Node::Member(_) | Node::SizeExpr(_) => false,
        Node::Assign(AssignOp::Plain, left, _) => {
            left != n && !is_one_struct(type_at(found, left), type_at(found, n))
        }
        _ => true,
    }
}

// Whether it is the operand of `&`, or what that begins with.
pub(crate) fn is_addressed(above: Node, n: u32, own: bool) -> bool
    ensures { result ≡ spec.is_addressed above n own }
{
    match above {
        Node::Unary(UnaryOp::Address, _) => true,
        Node::Paren(_) | Node::Member(_) => own,
        Node::Index(a, _) => a == n && own,
        _ => false,
    }
}

// Whether it is what an array that is used as a value begins with.
pub(crate) fn begins_array(above: Node, own: bool) -> bool
    ensures { result ≡ spec.begins_array above own }
{
    match above {
        Node::Paren(_) | Node::Member(_) => own,
        _ => false,
    }
}

// Whether `(void *)0` may stand here. Whether a pointer is asked for, another rule judges (C38), but for a comparison and
// `?:`.
pub(crate) fn may_be_null(
    arena: &Arena,
    symbols: &Symbols,
    found: &Findings,
    above: Node,
    n: u32,
    own: bool,
) -> bool
    ensures { result ≡ spec.may_be_null arena.now symbols.now found.now above n own }
{
    match above {
        Node::Paren(_) => own,
        Node::Assign(AssignOp::Plain, left, _) => left != n,
        Node::Call(f, _) => f != n,
        Node::Return(_) | Node::Declared(_) | Node::Braces(_) => true,
        Node::Binary(BinaryOp::Int(IntOp::Eq), a, b) => beside(arena, symbols, found, a, b, n),
        Node::Binary(BinaryOp::Int(IntOp::Ne), a, b) => beside(arena, symbols, found, a, b, n),
        Node::Cond(c, a, b) => c != n && beside(arena, symbols, found, a, b, n),
        _ => false,
    }
}

fn other(a: u32, b: u32, n: u32) -> u32
    ensures { result ≡ spec.other a b n }
{
    if a == n { b } else { a }
}

// Whether a null constant may stand at `n`, one of the parts `a` and `b`, beside the other.
fn beside(arena: &Arena, symbols: &Symbols, found: &Findings, a: u32, b: u32, n: u32) -> bool
    ensures { result ≡ spec.beside arena.now symbols.now found.now a b n }
{
    let other = other(a, b, n);
    takes_null(arena, symbols, found, type_at(found, other), other)
}

// Whether an operand of this type, at `n`, takes a null constant beside it: it is a pointer and no null constant, or untyped.
fn takes_null(
    arena: &Arena,
    symbols: &Symbols,
    found: &Findings,
    t: Option<ExprType>,
    n: u32,
) -> bool
    ensures { result ≡ spec.takes_null arena.now symbols.now found.now t n }
{
    match t {
        Some(t) => {
            symbols.types.is_pointer(symbols.types.value(t)) && !is_null(arena, symbols, found, n)
        }
        None => true,
    }
}

// Whether it is `(void *)0`, parentheses aside.
fn is_null(arena: &Arena, symbols: &Symbols, found: &Findings, n: u32) -> bool
    ensures { result ≡ spec.is_null arena.now symbols.now found.now n }
{
    let inner = inside(arena, n);
    match arena.node_at(inner) {
        Some(what) => is_null_cast(symbols, found, what, inner),
        None => false,
    }
}

fn is_pointer(symbols: &Symbols, t: Option<ExprType>) -> bool
    ensures { result ≡ spec.is_pointer symbols.now t }
{
    match t {
        Some(t) => symbols.types.is_pointer(t),
        None => false,
    }
}

// Whether it is `(void *)0`: a cast to a pointer that has a type.
pub(crate) fn is_null_cast(symbols: &Symbols, found: &Findings, what: Node, n: u32) -> bool
    ensures { result ≡ spec.is_null_cast symbols.now found.now what n }
{
    match what {
        Node::Cast(_, _) => is_pointer(symbols, type_at(found, n)),
        _ => false,
    }
}
