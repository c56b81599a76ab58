// Which arguments are passed to which formals.
ghost use Rattle.std.specs.Prelude.{◌≡◌, ◌++◌, IfOk, OnOk, slice_get};
ghost use Rattle.cc_handing.specs.Passing as spec;

use crate::put::put;
use crate::read::slot_of;
use crate::site::Site;
use cc_base::Memory;
use cc_blocks::Block;
use cc_graph::Graph;
use cc_listed::Access;
use cc_listing_shared::is_reached;
use cc_parts::Parts;
use cc_program::{FuncId, Program, VarId};
use cc_roles::arguments;
use std::alloc::Global;

// The formals of the function of this number.
fn formals_at(program: &Program, f: u32) -> &[VarId]
    ensures { result.now ≡ spec.formals_at program.now f }
{
    match program.function(FuncId(f)) {
        Some(function) => function.formals.as_slice(),
        None => &[],
    }
}

fn formal_at(formals: &[VarId], i: usize) -> Option<VarId>
    ensures { result ≡ slice_get formals.now i }
{
    formals.get(i).copied()
}

fn slot_by(parts: &Parts, v: Option<VarId>) -> Option<u32>
    ensures { result ≡ spec.slot_by parts.now v }
{
    match v {
        Some(v) => slot_of(parts, v),
        None => None,
    }
}

// An argument that is passed to a formal, if that has a slot.
fn passed(entry: u32, occurrence: u32, slot: Option<u32>) -> Option<Access>
    ensures { result ≡ spec.passed_by entry occurrence slot }
{
    match slot {
        Some(slot) => Some(Access {
            point: entry,
            slot,
            occurrence,
        }),
        None => None,
    }
}

// Puts these arguments at the end, each passed to the formal at its place.
fn put_passed(
    out: &mut Vec<Access>,
    parts: &Parts,
    entry: u32,
    formals: &[VarId],
    nodes: &[u32],
) -> Result<(), Memory>
    ensures { OnOk result (out.new.items
        ≡ out.old.items ++ spec.passed_from parts.now entry formals.now nodes.now 0) }
{
    for (i, node) in nodes.iter().enumerate() {
        let slot = slot_by(parts, formal_at(formals, i));
        put(out, passed(entry, *node, slot))?;
    }
    Ok(())
}

fn put_passed_to(
    out: &mut Vec<Access>,
    parts: &Parts,
    entry: Option<u32>,
    formals: &[VarId],
    nodes: &[u32],
) -> Result<(), Memory>
    ensures { OnOk result (out.new.items
        ≡ out.old.items ++ spec.passed_to parts.now entry formals.now nodes.now) }
{
    match entry {
        Some(entry) => put_passed(out, parts, entry, formals, nodes),
        None => Ok(()),
    }
}

fn is_reached_at(reach: &[Block], root: u32, at: Option<u32>) -> bool
    ensures { result ≡ spec.is_reached_at reach.now root at }
{
    match at {
        Some(at) => is_reached(reach, root, at),
        None => false,
    }
}

// Puts what a site passes to the function that it may call at the end, if the call is reached.
fn put_site(
    out: &mut Vec<Access>,
    program: &Program,
    graph: &Graph,
    parts: &Parts,
    reach: &[Block],
    root: u32,
    site: Site,
) -> Result<(), Memory>
    ensures { OnOk result (out.new.items
        ≡ out.old.items ++ spec.passed_at program.now graph.now parts.now reach.now root site) }
{
    if is_reached_at(reach, root, graph.at(site.site)) {
        put_passed_to(
            out,
            parts,
            graph.entry(FuncId(site.callee)),
            formals_at(program, site.callee),
            arguments(program, site.site),
        )
    } else {
        Ok(())
    }
}

/// The arguments that these sites pass to formals, where the call is reached: at the function's entry, by the argument's node.
/// `reach` says which points are reachable, as [`cc_listing_shared::reach_of`] does. Fails where memory is wanting.
pub fn passed_of(
    alloc: Global,
    program: &Program,
    graph: &Graph,
    parts: &Parts,
    sites: &[Site],
    reach: &[Block],
    root: u32,
) -> Result<Vec<Access>, Memory>
    ensures { IfOk result (λ out. out.items
        ≡ spec.passed program.now graph.now parts.now reach.now root sites.now) }
{
    let mut out = Vec::new(alloc);
    for site in sites {
        put_site(&mut out, program, graph, parts, reach, root, *site)?;
    }
    Ok(out)
}
