// Look-ups, each with nothing for what isn't there.
ghost use Rattle.std.specs.Prelude.{◌≡◌, ◌+◌, ◌<◌, ◌^◌, length, drop};
ghost use Rattle.cc_arena_rules.specs.Looks as spec;

use cc_arena::{Arena, Node, Placed};
use cc_symbols::{Declared, Findings, Form, Life, Symbols};
use cc_types::{ExprType, Shape};

// The nodes from `start` to before `end`, if there are all of them.
pub(crate) fn nodes_in(arena: &Arena, start: u32, end: u32) -> &[Placed]
    ensures nodes { result.now ≡ spec.nodes_in arena.now start end }
    ensures few { start + length result.now < 2 ^ 32 }
{
    let nodes = arena.nodes.as_slice();
    if start <= end && end as usize <= nodes.len() {
        &nodes[start as usize..end as usize]
    } else {
        &[]
    }
}

pub(crate) fn is_at(part: Option<u32>, n: u32) -> bool
    ensures { result ≡ spec.is_at part n }
{
    match part {
        Some(part) => part == n,
        None => false,
    }
}

// The type of an expression, if it has one.
pub(crate) fn type_at(found: &Findings, n: u32) -> Option<ExprType>
    ensures { result ≡ spec.type_at found.now n }
{
    match found.types.get(n) {
        Some(t) => t,
        None => None,
    }
}

// Whether an expression has a type.
pub(crate) fn is_typed(found: &Findings, n: u32) -> bool
    ensures { result ≡ spec.is_some (spec.type_at found.now n) }
{
    match type_at(found, n) {
        Some(_) => true,
        None => false,
    }
}

// The number of the declaration that a node names, if it names one.
pub(crate) fn named(symbols: &Symbols, n: u32) -> Option<u32>
    ensures { result ≡ spec.named symbols.now n }
{
    match symbols.names.get(n) {
        Some(d) => d,
        None => None,
    }
}

// The declaration that a node names.
fn declared(symbols: &Symbols, n: u32) -> Option<Declared>
    ensures { result ≡ spec.declared_by symbols.now (spec.named symbols.now n) }
{
    match named(symbols, n) {
        Some(d) => symbols.declared.get(d),
        None => None,
    }
}

fn is_automatic_form(form: Form) -> bool
    ensures { result ≡ spec.is_automatic_form form }
{
    match form {
        Form::Object(Life::Local) | Form::Object(Life::Formal) => true,
        _ => false,
    }
}

// Whether a node names an automatic object or a formal.
pub(crate) fn is_automatic(symbols: &Symbols, n: u32) -> bool
    ensures { result ≡ spec.is_automatic symbols.now n }
{
    match declared(symbols, n) {
        Some(what) => is_automatic_form(what.form),
        None => false,
    }
}

pub(crate) fn is_array(t: Option<ExprType>) -> bool
    ensures { result ≡ spec.is_array t }
{
    match t {
        Some(ExprType::Plain(Shape::Array(_, _, _))) => true,
        _ => false,
    }
}

pub(crate) fn is_struct(t: Option<ExprType>) -> bool
    ensures { result ≡ spec.is_struct t }
{
    match t {
        Some(ExprType::Plain(Shape::Struct(_, _))) => true,
        _ => false,
    }
}

// Whether both are the same struct type, `const` aside.
pub(crate) fn is_one_struct(s: Option<ExprType>, t: Option<ExprType>) -> bool
    ensures { result ≡ spec.is_one_struct s t }
{
    match (s, t) {
        (
            Some(ExprType::Plain(Shape::Struct(_, one))),
            Some(ExprType::Plain(Shape::Struct(_, other))),
        ) => one.0 == other.0,
        _ => false,
    }
}

// The number of the node inside the parentheses that stand at `n`, if any do. What stands in parentheses comes next.
pub(crate) fn inside(arena: &Arena, n: u32) -> u32
    ensures { result ≡ spec.inside arena.now n }
{
    peeled(nodes_from(arena, n), n)
}

fn nodes_from(arena: &Arena, n: u32) -> &[Placed]
    ensures { result.now ≡ drop n arena.now.nodes }
{
    let nodes = arena.nodes.as_slice();
    if (n as usize) < nodes.len() {
        &nodes[n as usize..]
    } else {
        &[]
    }
}

fn content(node: Node) -> Option<u32>
    ensures { result ≡ spec.content node }
{
    match node {
        Node::Paren(e) => Some(e),
        _ => None,
    }
}

fn peeled(nodes: &[Placed], n: u32) -> u32
    ensures { result ≡ spec.peeled nodes.now n }
{
    let mut inner = n;
    for placed in nodes {
        match content(placed.node) {
            Some(e) => inner = e,
            None => return inner,
        }
    }
    inner
}
