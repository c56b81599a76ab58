// The evaluated parts of a block, and of the first clause of a `for`.
ghost use Rattle.std.specs.Prelude.{◌≡◌, drop, IfOk, OnOk};
ghost use Rattle.cc_graph.specs.Parts as spec;

use crate::position::{Row, is_evaluated};
use cc_arena::{Arena, Node, Placed};
use cc_base::{List, Memory};
use std::alloc::Global;

// The declarator inside a form.
fn form_inside(node: Node) -> Option<u32>
    ensures { result ≡ spec.form_inside node }
{
    match node {
        Node::Pointer(d) | Node::Group(d) | Node::Array(d, _) | Node::Function(d, _) => d,
        _ => None,
    }
}

fn nodes_from(arena: &Arena, n: u32) -> &[Placed]
    ensures { result.now ≡ drop n arena.now.nodes }
{
    let nodes = arena.nodes.as_slice();
    if (n as usize) < nodes.len() {
        &nodes[n as usize..]
    } else {
        &[]
    }
}

// The name inside the forms that `nodes` begins with, if it begins with any; the first of them is the node `n`.
fn name_inside(nodes: &[Placed], n: u32) -> u32
    ensures { result ≡ spec.name_inside nodes.now n }
{
    let mut inner = n;
    for placed in nodes {
        match form_inside(placed.node) {
            Some(d) => inner = d,
            None => return inner,
        }
    }
    inner
}

// The name in the declarator whose outermost node this is. What is inside a form comes next.
fn name_in(arena: &Arena, d: u32) -> u32
    ensures { result ≡ spec.name_in arena.now d }
{
    name_inside(nodes_from(arena, d), d)
}

// Adds those of these declarators that are evaluated, each by its name.
fn push_names(
    parts: &mut List<u32>,
    arena: &Arena,
    rows: &[Row],
    declarators: &[u32],
) -> Result<(), Memory>
    ensures { OnOk result (parts.new
        ≡ spec.with_names arena.now rows.now declarators.now parts.old) }
{
    for d in declarators {
        let name = name_in(arena, *d);
        if is_evaluated(rows, name) {
            parts.push(name)?;
        }
    }
    Ok(())
}

// Adds what is evaluated of an item: a declaration's declarators, or the item itself.
fn push_item(parts: &mut List<u32>, arena: &Arena, rows: &[Row], item: u32) -> Result<(), Memory>
    ensures { OnOk result (parts.new ≡ spec.with_item arena.now rows.now item parts.old) }
{
    match arena.node_at(item) {
        Some(Node::Declaration(declarators)) => {
            push_names(parts, arena, rows, arena.part_list(declarators))
        }
        _ => parts.push(item),
    }
}

/// The evaluated parts that these items of a block have, in order.
pub(crate) fn item_parts(
    alloc: Global,
    arena: &Arena,
    rows: &[Row],
    items: &[u32],
) -> Result<List<u32>, Memory>
    ensures { IfOk result (λ parts. parts ≡ spec.item_parts arena.now rows.now items.now) }
{
    let mut parts = List::new(alloc);
    for item in items {
        push_item(&mut parts, arena, rows, *item)?;
    }
    Ok(parts)
}

/// The evaluated parts of the first clause of a `for`.
pub(crate) fn start_parts(
    alloc: Global,
    arena: &Arena,
    rows: &[Row],
    start: Option<u32>,
) -> Result<List<u32>, Memory>
    ensures { IfOk result (λ parts. parts ≡ spec.start_parts arena.now rows.now start) }
{
    match start {
        Some(start) => item_parts(alloc, arena, rows, &[start]),
        None => Ok(List::new(alloc)),
    }
}
