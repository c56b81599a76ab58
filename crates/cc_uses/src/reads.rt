// What lvalues read.
ghost use Rattle.std.specs.Prelude.{◌≡◌, ◌↔◌, ◌<◌, ◌^◌, length, Contains, slice_get, OnOk, IfOk};
ghost use Rattle.cc_uses.specs.Putting.{put_from};
ghost use Rattle.cc_uses.specs.Uses.{IsRead, IsInGraph};
ghost use Rattle.cc_uses.specs.Reading as spec;

use crate::peel::{Peeled, inner_at, peel_all};
use crate::put::{Reach, put_lvalue, reach_of};
use cc_arena::{Node, Placed};
use cc_arena_rules::{Around, surroundings};
use cc_base::Memory;
use cc_facts::Facts;
use cc_graph::Graph;
use cc_listed::Access;
use cc_program::Program;
use cc_tree::{AssignOp, UnaryOp};
use cc_types::ExprType;
use std::alloc::Global;

// Whether it is an lvalue without parentheses around it. A string literal reads nothing.
fn is_lvalue(node: Node) -> bool
    ensures { result ≡ spec.is_lvalue node }
{
    match node {
        Node::Name
        | Node::Unary(UnaryOp::Deref, _)
        | Node::Member(_)
        | Node::Arrow(_)
        | Node::Index(_, _) => true,
        _ => false,
    }
}

fn is_value(around: &[Around], n: u32) -> bool
    ensures { result ≡ spec.is_value (slice_get around.now n) }
{
    match around.get(n as usize).copied() {
        Some(around) => around.is_value,
        None => false,
    }
}

// What a node of this type reads, if it is used as a value.
fn read_reach(node: Node, is_used: bool, t: Option<ExprType>) -> Option<Reach>
    ensures { result ≡ spec.read_reach node is_used t }
{
    if is_lvalue(node) && is_used {
        match reach_of(t) {
            Some(Reach::Itself) => Some(Reach::Itself),
            _ => None,
        }
    } else {
        None
    }
}

// What a node of this type reads that is the right side of an assignment.
fn copy_reach(node: Option<Node>, t: Option<ExprType>) -> Option<Reach>
    ensures { result ≡ spec.copy_reach node t }
{
    match (node, reach_of(t)) {
        (Some(node), Some(Reach::Inner)) => {
            if is_lvalue(node) {
                Some(Reach::Inner)
            } else {
                None
            }
        }
        _ => None,
    }
}

// The right side of a plain assignment.
fn right_of(node: Node) -> Option<u32>
    ensures { result ≡ spec.right_of node }
{
    match node {
        Node::Assign(AssignOp::Plain, _, b) => Some(b),
        _ => None,
    }
}

// Puts what the right side of the assignment `node` reads as a struct, if it is any.
fn put_copied(
    out: &mut Vec<Access>,
    program: &Program,
    graph: &Graph,
    facts: &Facts,
    peeled: &[Peeled],
    node: Node,
) -> Result<(), Memory>
    ensures { OnOk result (out.new.items
        ≡ spec.with_copied program.now graph.now facts.now peeled.now node out.old.items) }
{
    match right_of(node) {
        Some(b) => {
            let l = inner_at(peeled, b);
            let reach = copy_reach(program.node(l), program.type_of(l));
            put_lvalue(out, facts, reach, graph.after(l), l)
        }
        None => Ok(()),
    }
}

// What is known of all nodes before any is read.
#[derive(Drop)]
struct Known<'a> {
    program: &'a Program,
    graph: &'a Graph,
    facts: &'a Facts,
    peeled: &'a [Peeled],
    around: &'a [Around],
}

// Puts what the node `n` reads.
fn put_read(out: &mut Vec<Access>, known: &Known, n: u32, placed: Placed) -> Result<(), Memory>
    ensures { OnOk result (out.new.items ≡ spec.put_read known.now.program.now known.now.graph.now
        known.now.facts.now known.now.peeled.now known.now.around.now n placed out.old.items) }
{
    let is_used = is_value(known.around, n);
    let reach = read_reach(placed.node, is_used, known.program.type_of(n));
    put_lvalue(out, known.facts, reach, known.graph.after(n), n)?;
    put_copied(
        out,
        known.program,
        known.graph,
        known.facts,
        known.peeled,
        placed.node,
    )
}

// Puts what these nodes read.
fn put_reads(out: &mut Vec<Access>, known: &Known, nodes: &[Placed]) -> Result<(), Memory>
    requires { length nodes.now < 2 ^ 32 }
    ensures { OnOk result (out.new.items ≡ put_from (spec.put_read known.now.program.now known.now.graph.now
        known.now.facts.now known.now.peeled.now known.now.around.now) nodes.now 0 out.old.items) }
{
    let mut n: u32 = 0;
    for placed in nodes {
        put_read(out, known, n, *placed)?;
        n += 1;
    }
    Ok(())
}

// All of them, in order.
fn all_reads(
    alloc: Global,
    program: &Program,
    graph: &Graph,
    facts: &Facts,
) -> Result<Vec<Access>, Memory>
    ensures { IfOk result (λ out. out.items ≡ spec.reads_of program.now graph.now facts.now) }
{
    let count = program.arena.count()?;
    let nodes = program.arena.nodes.as_slice();
    let peeled = peel_all(alloc, nodes)?;
    let symbols = &program.known.symbols;
    let around = surroundings(
        alloc,
        &program.arena,
        symbols,
        &program.known.found,
        0,
        count,
    )?;
    let known = Known {
        program,
        graph,
        facts,
        peeled: peeled.as_slice(),
        around: around.as_slice(),
    };
    let mut out = Vec::new(alloc);
    put_reads(&mut out, &known, nodes)?;
    Ok(out)
}

/// What the lvalues of a program read. Fails where memory is wanting.
pub fn reads_of(
    alloc: Global,
    program: &Program,
    graph: &Graph,
    facts: &Facts,
) -> Result<Vec<Access>, Memory>
    ensures list { IfOk result (λ out. out.items ≡ spec.reads_of program.now graph.now facts.now) }
    ensures each { IfOk result (λ out. (a : Access)
        → Contains out.items a ↔ IsRead program.now graph.now facts.now a) }
    ensures points { IfOk result (λ out. IsInGraph graph.now out.items) }
{
    let out = all_reads(alloc, program, graph, facts)?;
    Ok(out)
}
