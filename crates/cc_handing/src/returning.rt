// Returns of functions.
ghost use Rattle.std.specs.Prelude.{◌≡◌, OnOk};
ghost use Rattle.cc_handing.specs.Handing as spec;

use crate::handed::{Handed, put_named};
use crate::owning::{definitions_of, functions_around, functions_of};
use crate::put::small;
use crate::read::{Source, source_of};
use cc_arena::{Node, Placed};
use cc_base::{List, Memory};
use cc_graph::Graph;
use cc_listed::Returned;
use cc_parts::Parts;
use cc_program::Program;
use cc_roles::returned;
use std::alloc::Global;

// Puts a return of a function at the end.
fn put_return(
    handed: &mut Handed,
    callee: u32,
    statement: u32,
    after: u32,
    source: Source,
) -> Result<(), Memory>
    ensures { OnOk result (handed.new
        ≡ spec.with_return callee statement after source handed.old) }
{
    let named = match source {
        Source::Missing => return Ok(()),
        Source::Itself => None,
        Source::Read(access) => Some(put_named(&mut handed.named, access)?),
    };
    handed.returns.push(Returned {
        callee,
        statement,
        after,
        named,
    })
}

// Whether the node is a return with an expression.
fn is_return(node: Node) -> bool
    ensures { result ≡ spec.is_return node }
{
    matches!(node, Node::Return(Some(_)))
}

// Puts a return of each of these functions at the end.
fn put_callees(
    handed: &mut Handed,
    statement: u32,
    after: u32,
    source: Source,
    callees: &[u32],
) -> Result<(), Memory>
    ensures { OnOk result (handed.new
        ≡ spec.with_callees statement after source callees.now handed.old) }
{
    for callee in callees {
        put_return(handed, *callee, statement, after, source)?;
    }
    Ok(())
}

fn put_return_after(
    handed: &mut Handed,
    program: &Program,
    graph: &Graph,
    parts: &Parts,
    callees: &[u32],
    n: u32,
    after: Option<u32>,
) -> Result<(), Memory>
    ensures { OnOk result (handed.new
        ≡ spec.with_return_after program.now graph.now parts.now callees.now n after handed.old) }
{
    match after {
        Some(after) => {
            let source = source_of(program, graph, parts, returned(program, n));
            put_callees(handed, n, after, source, callees)
        }
        None => Ok(()),
    }
}

// Puts the node at the end for each of these functions, if it is a return with an expression and its point is there.
fn put_node(
    handed: &mut Handed,
    program: &Program,
    graph: &Graph,
    parts: &Parts,
    callees: &[u32],
    n: u32,
    node: Node,
) -> Result<(), Memory>
    ensures { OnOk result (handed.new
        ≡ spec.with_node program.now graph.now parts.now callees.now n node handed.old) }
{
    if is_return(node) {
        put_return_after(handed, program, graph, parts, callees, n, graph.after(n))
    } else {
        Ok(())
    }
}

// Puts the returns among these nodes at the end. The tables tell the functions that they stand in.
fn put_nodes(
    handed: &mut Handed,
    program: &Program,
    graph: &Graph,
    parts: &Parts,
    definitions: &[Option<u32>],
    functions: &[List<u32>],
    nodes: &[Placed],
) -> Result<(), Memory>
    ensures { OnOk result (handed.new
        ≡ spec.with_nodes program.now graph.now parts.now definitions.now functions.now nodes.now 0 handed.old) }
{
    for (n, placed) in nodes.iter().enumerate() {
        let callees = functions_around(definitions, functions, placed.parent);
        put_node(
            handed,
            program,
            graph,
            parts,
            callees,
            small(n)?,
            placed.node,
        )?;
    }
    Ok(())
}

/// Puts the returns of all functions at the end.
pub(crate) fn put_returns(
    alloc: Global,
    handed: &mut Handed,
    program: &Program,
    graph: &Graph,
    parts: &Parts,
) -> Result<(), Memory>
    ensures { OnOk result (handed.new
        ≡ spec.with_returns program.now graph.now parts.now handed.old) }
{
    let definitions = definitions_of(alloc, program)?;
    let functions = functions_of(alloc, program, graph)?;
    put_nodes(
        handed,
        program,
        graph,
        parts,
        definitions.as_slice(),
        functions.as_slice(),
        program.arena().nodes.as_slice(),
    )
}
