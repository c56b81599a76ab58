// In which functions nodes stand.
ghost use Rattle.std.specs.Prelude.{◌≡◌, [], OnOk, IfOk, replicate, slice_get};
ghost use Rattle.cc_graph.specs.Graphs.{defined_by};
ghost use Rattle.cc_handing.specs.Owning as spec;

use crate::put::small;
use cc_arena::{Node, Placed};
use cc_base::{List, Memory};
use cc_graph::Graph;
use cc_program::{Function, Program};
use cc_symbols::Slots;
use std::alloc::Global;

// The definition that the parts of the node `n` stand in, where `n` itself stands in `own`.
fn handed_on(n: u32, node: Node, own: Option<u32>) -> Option<u32>
    ensures { result ≡ spec.handed_on n node own }
{
    match node {
        Node::Definition(_, _) => Some(n),
        _ => own,
    }
}

// The definition that the parts of the node `up` stand in.
fn definition_at(definitions: &[Option<u32>], up: u32) -> Option<u32>
    ensures { result ≡ spec.definition_at definitions.now up }
{
    match definitions.get(up as usize).copied() {
        Some(definition) => definition,
        None => None,
    }
}

/// By the number of a node the definition that its parts stand in.
pub(crate) fn definitions_of(alloc: Global, program: &Program) -> Result<Slots<Option<u32>>, Memory>
    ensures { IfOk result (λ all. all ≡ spec.definitions program.now) }
{
    let nodes = program.arena().nodes.as_slice();
    let mut all = Slots::new(alloc);
    for (n, placed) in nodes.iter().enumerate() {
        let own = definition_at(all.as_slice(), placed.parent);
        all.push(handed_on(small(n)?, placed.node, own))?;
    }
    Ok(all)
}

// So many empty rows.
fn empty(alloc: Global, count: usize) -> Result<Vec<List<u32>>, Memory>
    ensures { IfOk result (λ rows. rows.items ≡ replicate count []) }
{
    let mut rows = Vec::new(alloc);
    for _row in 0..count {
        rows.push(List::new(alloc))?;
    }
    Ok(rows)
}

// Puts the function in the row of the node that defines it.
fn put_function(
    rows: &mut Vec<List<u32>>,
    definition: Option<u32>,
    function: u32,
) -> Result<(), Memory>
    ensures { OnOk result (rows.new.items
        ≡ spec.with_function definition function rows.old.items) }
{
    match definition {
        Some(d) => {
            if (d as usize) < rows.len() {
                rows[d as usize].push(function)?;
            }
            Ok(())
        }
        None => Ok(()),
    }
}

fn definition_of(graph: &Graph, f: u32) -> Option<u32>
    ensures { result ≡ defined_by (slice_get graph.now.definitions f) }
{
    match graph.definitions.get(f) {
        Some(definition) => definition,
        None => None,
    }
}

// Puts these functions in the rows of the nodes that define them.
fn put_functions(
    rows: &mut Vec<List<u32>>,
    graph: &Graph,
    functions: &[Function],
) -> Result<(), Memory>
    ensures { OnOk result (rows.new.items
        ≡ spec.with_functions graph.now functions.now 0 rows.old.items) }
{
    for (i, function) in functions.iter().enumerate() {
        let definition = definition_of(graph, small(i)?);
        put_function(rows, definition, function.declarator)?;
    }
    Ok(())
}

/// By the number of a node the functions that it defines, by their declarators.
pub(crate) fn functions_of(
    alloc: Global,
    program: &Program,
    graph: &Graph,
) -> Result<Vec<List<u32>>, Memory>
    ensures { IfOk result (λ rows. rows.items ≡ spec.functions program.now graph.now) }
{
    let mut rows = empty(alloc, program.arena().nodes.as_slice().len())?;
    put_functions(&mut rows, graph, program.functions.as_slice())?;
    Ok(rows)
}

fn row_by(rows: &[List<u32>], definition: Option<u32>) -> &[u32]
    ensures { result.now ≡ spec.row_by rows.now definition }
{
    match definition {
        Some(d) => match rows.get(d as usize) {
            Some(row) => row.as_slice(),
            None => &[],
        },
        None => &[],
    }
}

/// The functions that the parts of a node stand in, by these tables.
pub(crate) fn functions_around<'a>(
    definitions: &[Option<u32>],
    rows: &'a [List<u32>],
    up: u32,
) -> &'a [u32]
    ensures { result.now ≡ spec.functions_around definitions.now rows.now up }
{
    row_by(rows, definition_at(definitions, up))
}
