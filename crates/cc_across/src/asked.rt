// Which calls are calls of functions of the environment.
ghost use Rattle.std.specs.Prelude.{◌≡◌, drop, slice_get};
ghost use Rattle.cc_arena_rules.specs.Looks as looks;
ghost use Rattle.cc_across.specs.Stepping as spec;

use cc_arena::{Arena, Node, Placed};
use cc_program::{FuncId, FunctionKind, Program, Referent};

fn nodes_from(arena: &Arena, n: u32) -> &[Placed]
    ensures { result.now ≡ drop n arena.now.nodes }
{
    let nodes = arena.nodes.as_slice();
    if (n as usize) < nodes.len() {
        &nodes[n as usize..]
    } else {
        &[]
    }
}

fn content(node: Node) -> Option<u32>
    ensures { result ≡ looks.content node }
{
    match node {
        Node::Paren(e) => Some(e),
        _ => None,
    }
}

fn peeled(nodes: &[Placed], n: u32) -> u32
    ensures { result ≡ looks.peeled nodes.now n }
{
    let mut inner = n;
    for placed in nodes {
        match content(placed.node) {
            Some(e) => inner = e,
            None => return inner,
        }
    }
    inner
}

// The number of the node inside the parentheses that stand at `n`, if any do. What stands in parentheses comes next.
fn inside(arena: &Arena, n: u32) -> u32
    ensures { result ≡ looks.inside arena.now n }
{
    peeled(nodes_from(arena, n), n)
}

fn is_environment_function(program: &Program, g: FuncId) -> bool
    ensures { result ≡ spec.is_environment_function (slice_get program.now.functions g.0) }
{
    match program.function(g) {
        Some(function) => match function.kind {
            FunctionKind::Environment => true,
            FunctionKind::Defined => false,
        },
        None => false,
    }
}

fn is_of_environment(program: &Program, named: Option<Referent>) -> bool
    ensures { result ≡ spec.is_of_environment program.now named }
{
    match named {
        Some(Referent::Function(g)) => is_environment_function(program, g),
        _ => false,
    }
}

/// Whether a node is a call whose designator, parentheses aside, is the name of a function of the environment.
pub(crate) fn is_asked(program: &Program, node: Node) -> bool
    ensures { result ≡ spec.is_asked program.now node }
{
    match node {
        Node::Call(f, _) => {
            is_of_environment(program, program.names(inside(program.arena(), f)))
        }
        _ => false,
    }
}
