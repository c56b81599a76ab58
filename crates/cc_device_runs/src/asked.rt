// Which function of the environment a node calls.
ghost use Rattle.std.specs.Prelude.{◌≡◌, drop};
ghost use Rattle.cc_arena_rules.specs.Looks as looks;
ghost use Rattle.cc_device_runs.specs.Asking as spec;

use cc_arena::{Arena, Node, Placed};
use cc_program::{FuncId, Program, Referent};

fn nodes_from(arena: &Arena, n: u32) -> &[Placed]
    ensures { result.now ≡ drop n arena.now.nodes }
{
    let nodes = arena.nodes.as_slice();
    if (n as usize) < nodes.len() {
        &nodes[n as usize..]
    } else {
        &[]
    }
}

fn content(node: Node) -> Option<u32>
    ensures { result ≡ looks.content node }
{
    match node {
        Node::Paren(e) => Some(e),
        _ => None,
    }
}

fn peeled(nodes: &[Placed], n: u32) -> u32
    ensures { result ≡ looks.peeled nodes.now n }
{
    let mut inner = n;
    for placed in nodes {
        match content(placed.node) {
            Some(e) => inner = e,
            None => return inner,
        }
    }
    inner
}

// The number of the node inside the parentheses that stand at `n`, if any do. What stands in parentheses comes next.
fn inside(arena: &Arena, n: u32) -> u32
    ensures { result ≡ looks.inside arena.now n }
{
    peeled(nodes_from(arena, n), n)
}

fn as_function(named: Option<Referent>) -> Option<FuncId>
    ensures { result ≡ spec.as_function named }
{
    match named {
        Some(Referent::Function(f)) => Some(f),
        _ => None,
    }
}

/// The function whose name, parentheses aside, a call has as its designator.
pub fn asked(program: &Program, node: Node) -> Option<FuncId>
    ensures { result ≡ spec.asked program.now node }
{
    match node {
        Node::Call(f, _) => as_function(program.names(inside(program.arena(), f))),
        _ => None,
    }
}
