// The steps over calls and returns.
ghost use Rattle.std.specs.Prelude.{◌≡◌, ◌<◌, ◌^◌, [], length, slice_get, IfOk, OnOk};
ghost use Rattle.cc_flows.specs.Sweeping.{StaysWithin};
ghost use Rattle.cc_across.specs.Crossing.{AreNext};
ghost use Rattle.cc_across.specs.Stepping as spec;

use crate::asked::is_asked;
use crate::calls::Calls;
use crate::pairs::{join, table_of};
use cc_arena::{Node, Placed};
use cc_base::{List, Memory};
use cc_graph::{Graph, Position};
use cc_program::{FuncId, Program};
use std::alloc::Global;

// Adds the root with the entry of each of these functions, and its exit with the root.
fn push_entries(
    pairs: &mut Vec<(u32, u32)>,
    graph: &Graph,
    entries: &[FuncId],
) -> Result<(), Memory>
    ensures { OnOk result (pairs.new.items ≡ spec.entry_steps graph.now entries.now pairs.old.items) }
{
    for f in entries {
        join(pairs, graph.len(), Some(0), graph.entry(*f))?;
        join(pairs, graph.len(), graph.exit(*f), Some(0))?;
    }
    Ok(())
}

// Adds the point at a site with the entry of each of these functions, and its exit with the point after the site.
fn push_callees(
    pairs: &mut Vec<(u32, u32)>,
    graph: &Graph,
    site: u32,
    callees: &[u32],
) -> Result<(), Memory>
    ensures { OnOk result (pairs.new.items ≡ spec.callee_steps graph.now site callees.now pairs.old.items) }
{
    for g in callees {
        join(pairs, graph.len(), graph.at(site), graph.entry(FuncId(*g)))?;
        join(
            pairs,
            graph.len(),
            graph.exit(FuncId(*g)),
            graph.after(site),
        )?;
    }
    Ok(())
}

fn push_sites(
    pairs: &mut Vec<(u32, u32)>,
    graph: &Graph,
    calls: &Calls,
    sites: &[u32],
) -> Result<(), Memory>
    ensures { OnOk result (pairs.new.items
        ≡ spec.site_steps graph.now calls.now sites.now pairs.old.items) }
{
    for site in sites {
        push_callees(pairs, graph, *site, calls.callees(*site))?;
    }
    Ok(())
}

// Adds the point at a call with the point after it, if the call asks the environment.
fn push_asked(pairs: &mut Vec<(u32, u32)>, graph: &Graph, asks: bool, n: u32) -> Result<(), Memory>
    ensures { OnOk result (pairs.new.items ≡ spec.asked_step graph.now asks n pairs.old.items) }
{
    if asks {
        join(pairs, graph.len(), graph.at(n), graph.after(n))
    } else {
        Ok(())
    }
}

fn push_all_asked(
    pairs: &mut Vec<(u32, u32)>,
    program: &Program,
    graph: &Graph,
    nodes: &[Placed],
) -> Result<(), Memory>
    requires { length nodes.now < 2 ^ 32 }
    ensures { OnOk result (pairs.new.items
        ≡ spec.asked_steps program.now graph.now nodes.now 0 pairs.old.items) }
{
    for (n, placed) in nodes.iter().enumerate() {
        push_asked(pairs, graph, is_asked(program, placed.node), n as u32)?;
    }
    Ok(())
}

fn is_at(position: Option<Position>) -> bool
    ensures { result ≡ spec.is_at position }
{
    match position {
        Some(Position::At(_)) => true,
        _ => false,
    }
}

fn push_row(pairs: &mut Vec<(u32, u32)>, points: u32, p: u32, row: &[u32]) -> Result<(), Memory>
    ensures { OnOk result (pairs.new.items ≡ spec.row_steps points p row.now pairs.old.items) }
{
    for q in row {
        join(pairs, points, Some(p), Some(*q))?;
    }
    Ok(())
}

// Adds a point with those that come next within its function, unless it is at a call.
fn push_point(pairs: &mut Vec<(u32, u32)>, graph: &Graph, p: u32, row: &[u32]) -> Result<(), Memory>
    ensures { OnOk result (pairs.new.items ≡ spec.point_steps graph.now p row.now pairs.old.items) }
{
    if is_at(graph.position(p)) {
        Ok(())
    } else {
        push_row(pairs, graph.len(), p, row)
    }
}

fn push_inner(pairs: &mut Vec<(u32, u32)>, graph: &Graph, rows: &[List<u32>]) -> Result<(), Memory>
    requires { length rows.now < 2 ^ 32 }
    ensures { OnOk result (pairs.new.items ≡ spec.inner_steps graph.now rows.now 0 pairs.old.items) }
{
    for (p, row) in rows.iter().enumerate() {
        push_point(pairs, graph, p as u32, row.as_slice())?;
    }
    Ok(())
}

// All steps.
fn all_steps(
    alloc: Global,
    program: &Program,
    graph: &Graph,
    calls: &Calls,
) -> Result<Vec<(u32, u32)>, Memory>
    ensures { IfOk result (λ pairs. pairs.items ≡ spec.all_steps program.now graph.now calls.now) }
{
    let arena = program.arena();
    let _nodes = arena.count()?;
    if graph.next.len() > u32::MAX as u64 {
        return Err(Memory);
    }
    let mut pairs = Vec::new(alloc);
    push_entries(&mut pairs, graph, program.entries())?;
    push_sites(&mut pairs, graph, calls, calls.sites())?;
    push_all_asked(&mut pairs, program, graph, arena.nodes.as_slice())?;
    push_inner(&mut pairs, graph, graph.next.as_slice())?;
    Ok(pairs)
}

/// For each point the points that come next over calls and returns, and within functions, in ascending order, each once.
pub fn next_across(
    alloc: Global,
    program: &Program,
    graph: &Graph,
    calls: &Calls,
) -> Result<Vec<List<u32>>, Memory>
    ensures long { IfOk result (λ next. length next.items ≡ graph.now.points) }
    ensures stays { IfOk result (λ next. StaysWithin next.items) }
    ensures next { IfOk result (λ next. AreNext program.now graph.now calls.now next.items) }
{
    let pairs = all_steps(alloc, program, graph, calls)?;
    let next = table_of(alloc, graph.len(), pairs)?;
    Ok(next)
}
