// What an occurrence has from the nodes around it.
ghost use Rattle.std.specs.Prelude.{◌≡◌, ◌<◌, ◌^◌, [], length, slice_get, IfOk};
ghost use Rattle.cc_arena.specs.Arenas.{stretch, node_of};
ghost use Rattle.cc_program.specs.Programs.{names};
ghost use Rattle.cc_points_view.specs.Standings as spec;

use cc_arena::{Node, Placed};
use cc_base::Memory;
use cc_parts::{Form, Parts};
use cc_program::{Program, Referent};
use cc_symbols::Slots;
use std::alloc::Global;

/// What an occurrence has from the nodes around it.
#[derive(Clone, Copy)]
pub struct Standing {
    /// Whether it is evaluated: it stands in the body of a function or in the initialiser of a variable, and neither in an
    /// operand of `sizeof`, nor in the length of an array, nor in a value that is to be constant.
    pub is_evaluated: bool,
    /// The number of the function in whose body it stands.
    pub function: Option<u32>,
    /// The part of an object that it initialises, if it is an initialiser.
    pub cell: Option<u32>,
}

// Of what is a part of nothing.
fn outermost() -> Standing
    ensures { result ≡ spec.outermost }
{
    Standing {
        is_evaluated: false,
        function: None,
        cell: None,
    }
}

// Whether a node is the one that may be a part.
fn is_at(part: Option<u32>, n: u32) -> bool
    ensures { result ≡ spec.is_at part n }
{
    match part {
        Some(part) => part == n,
        None => false,
    }
}

// The whole object of a variable that a name names.
fn whole_of(parts: &Parts, named: Option<Referent>) -> Option<u32>
    ensures { result ≡ spec.whole_of parts.now named }
{
    match named {
        Some(Referent::Variable(v)) => match parts.object_at(v.0) {
            Some(object) => Some(object.first),
            None => None,
        },
        _ => None,
    }
}

fn is_variable(named: Option<Referent>) -> bool
    ensures { result ≡ spec.is_variable named }
{
    matches!(named, Some(Referent::Variable(_)))
}

// Whether the node `n`, a part of `above`, is evaluated, where `up` is the number of `above` and `own` says the same of it.
fn is_evaluated(program: &Program, above: Node, up: u32, n: u32, own: bool) -> bool
    ensures { result ≡ spec.is_evaluated program.now above up n own }
{
    match above {
        Node::Definition(_, block) => block == n,
        Node::Declared(_) => is_variable(program.names(up)),
        Node::SizeExpr(_) | Node::Case(_) | Node::Constant(_) => false,
        Node::Array(inner, _) => is_at(inner, n) && own,
        _ => own,
    }
}

// The function of the body in which the node `n` stands.
fn function_in(bodies: &[Option<u32>], above: Node, n: u32, own: Option<u32>) -> Option<u32>
    ensures { result ≡ spec.function_in bodies.now above n own }
{
    match above {
        Node::Definition(_, block) => { if block == n { body_at(bodies, n) } else { None } }
        _ => own,
    }
}

fn body_at(bodies: &[Option<u32>], n: u32) -> Option<u32>
    ensures { result ≡ spec.or_none (slice_get bodies.now n) }
{
    match bodies.get(n as usize).copied() {
        Some(function) => function,
        None => None,
    }
}

// The place of a number in a list.
fn place_in(list: &[u32], n: u32) -> Option<u32>
    ensures { result ≡ spec.place_from 0 list.now n }
{
    let mut place: u32 = 0;
    for other in list {
        if *other == n {
            return Some(place);
        }
        place = place.saturating_add(1);
    }
    None
}

fn member_cell(parts: &Parts, cell: u32, place: Option<u32>) -> Option<u32>
    ensures { result ≡ spec.member_cell parts.now cell place }
{
    match place {
        Some(place) => parts.member_of(cell, place),
        None => None,
    }
}

// What the node `n` initialises that stands in these braces, where the braces initialise a part.
fn braced(parts: &Parts, items: &[u32], n: u32, cell: u32) -> Option<u32>
    ensures { result ≡ spec.braced parts.now items.now n cell }
{
    match parts.part_at(cell) {
        Some(part) => match part.form {
            Form::Array => parts.element_of(cell),
            Form::Struct(_) => member_cell(parts, cell, place_in(items, n)),
            Form::Number | Form::Pointer => Some(cell),
            Form::Other => None,
        },
        None => None,
    }
}

// The part that the node `n` initialises.
fn cell_in(
    program: &Program,
    parts: &Parts,
    above: Node,
    up: u32,
    n: u32,
    own: Option<u32>,
) -> Option<u32>
    ensures { result ≡ spec.cell_in program.now parts.now above up n own }
{
    match above {
        Node::Declared(_) => whole_of(parts, program.names(up)),
        Node::Braces(span) => match own {
            Some(cell) => braced(parts, program.arena.part_list(span), n, cell),
            None => None,
        },
        _ => None,
    }
}

fn below(
    program: &Program,
    parts: &Parts,
    bodies: &[Option<u32>],
    above: Node,
    up: u32,
    n: u32,
    own: Standing,
) -> Standing
    ensures { result ≡ spec.below program.now parts.now bodies.now above up n own }
{
    Standing {
        is_evaluated: is_evaluated(program, above, up, n, own.is_evaluated),
        function: function_in(bodies, above, n, own.function),
        cell: cell_in(program, parts, above, up, n, own.cell),
    }
}

fn standing_of(
    program: &Program,
    parts: &Parts,
    bodies: &[Option<u32>],
    n: u32,
    up: u32,
    own: Option<Standing>,
) -> Standing
    ensures { result ≡ spec.standing_of program.now parts.now bodies.now n up own }
{
    match (program.node(up), own) {
        (Some(above), Some(own)) => below(program, parts, bodies, above, up, n, own),
        _ => outermost(),
    }
}

fn own_of(done: &[Standing], up: u32) -> Option<Standing>
    ensures { result ≡ slice_get done.now up }
{
    done.get(up as usize).copied()
}

/// What each occurrence has from the nodes around it, where `bodies` has the functions by the nodes of their bodies. Fails
/// where memory is wanting.
pub fn standings(
    alloc: Global,
    program: &Program,
    parts: &Parts,
    bodies: &[Option<u32>],
    nodes: &[Placed],
) -> Result<Slots<Standing>, Memory>
    requires { length nodes.now < 2 ^ 32 }
    ensures { IfOk result (λ all. all ≡ spec.standings_from program.now parts.now bodies.now nodes.now 0 []) }
{
    let mut all = Slots::new(alloc);
    let mut n: u32 = 0;
    for placed in nodes {
        let own = own_of(all.as_slice(), placed.parent);
        all.push(standing_of(program, parts, bodies, n, placed.parent, own))?;
        n += 1;
    }
    Ok(all)
}
