// What assignments and steps write.
ghost use Rattle.std.specs.Prelude.{◌≡◌, ◌↔◌, ◌<◌, ◌^◌, length, Contains, OnOk, IfOk};
ghost use Rattle.cc_uses.specs.Putting.{put_from};
ghost use Rattle.cc_uses.specs.Uses.{IsWrite, IsInGraph};
ghost use Rattle.cc_uses.specs.Writing as spec;

use crate::peel::{Peeled, inner_at, peel_all};
use crate::put::{put_lvalue, reach_of};
use cc_arena::{Node, Placed};
use cc_base::Memory;
use cc_facts::Facts;
use cc_graph::Graph;
use cc_listed::Access;
use cc_program::Program;
use std::alloc::Global;

// What an assignment or a step writes.
fn target_of(node: Node) -> Option<u32>
    ensures { result ≡ spec.target_of node }
{
    match node {
        Node::Assign(_, a, _) => Some(a),
        Node::Step(_, _, e) => Some(e),
        _ => None,
    }
}

// Puts what the node `n` writes.
fn put_write(
    out: &mut Vec<Access>,
    program: &Program,
    graph: &Graph,
    facts: &Facts,
    peeled: &[Peeled],
    n: u32,
    placed: Placed,
) -> Result<(), Memory>
    ensures { OnOk result (out.new.items
        ≡ spec.put_write program.now graph.now facts.now peeled.now n placed out.old.items) }
{
    match target_of(placed.node) {
        Some(e) => {
            let l = inner_at(peeled, e);
            put_lvalue(out, facts, reach_of(program.type_of(l)), graph.after(n), l)
        }
        None => Ok(()),
    }
}

// Puts what these nodes write.
fn put_writes(
    out: &mut Vec<Access>,
    program: &Program,
    graph: &Graph,
    facts: &Facts,
    peeled: &[Peeled],
    nodes: &[Placed],
) -> Result<(), Memory>
    requires { length nodes.now < 2 ^ 32 }
    ensures { OnOk result (out.new.items
        ≡ put_from (spec.put_write program.now graph.now facts.now peeled.now) nodes.now 0 out.old.items) }
{
    let mut n: u32 = 0;
    for placed in nodes {
        put_write(out, program, graph, facts, peeled, n, *placed)?;
        n += 1;
    }
    Ok(())
}

// All of them, in order.
fn all_writes(
    alloc: Global,
    program: &Program,
    graph: &Graph,
    facts: &Facts,
) -> Result<Vec<Access>, Memory>
    ensures { IfOk result (λ out. out.items ≡ spec.writes_of program.now graph.now facts.now) }
{
    let _count = program.arena.count()?;
    let nodes = program.arena.nodes.as_slice();
    let peeled = peel_all(alloc, nodes)?;
    let mut out = Vec::new(alloc);
    put_writes(&mut out, program, graph, facts, peeled.as_slice(), nodes)?;
    Ok(out)
}

/// What the assignments and steps of a program write, by the lvalues that are their targets. Fails where memory is wanting.
pub fn writes_of(
    alloc: Global,
    program: &Program,
    graph: &Graph,
    facts: &Facts,
) -> Result<Vec<Access>, Memory>
    ensures list { IfOk result (λ out. out.items ≡ spec.writes_of program.now graph.now facts.now) }
    ensures each { IfOk result (λ out. (a : Access)
        → Contains out.items a ↔ IsWrite program.now graph.now facts.now a) }
    ensures points { IfOk result (λ out. IsInGraph graph.now out.items) }
{
    let out = all_writes(alloc, program, graph, facts)?;
    Ok(out)
}
