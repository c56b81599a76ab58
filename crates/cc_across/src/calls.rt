// Which functions are live, and what the calls in them may call.
ghost use Rattle.std.specs.Prelude.{◌≡◌, ◌↔◌, ℕ, [], IfOk, OnOk, Contains};
ghost use Rattle.cc_graph.specs.Order.{IsAscending};
ghost use Rattle.cc_across.specs.Calling as spec;
ghost use Rattle.cc_across.specs.Reaching as reaching;

use crate::owners::{Owners, owners_of};
use crate::pairs::table_of;
use crate::reach::live_of;
use crate::sites::all_calls;
use cc_arena::Arena;
use cc_base::{List, Memory};
use cc_facts::Facts;
use cc_graph::Graph;
use cc_program::Program;
use cc_rows::arrange;
use std::alloc::Global;

/// Which functions are live, and what the calls in them may call.
#[derive(Drop)]
pub struct Calls {
    /// By the number of a function, whether it is live.
    pub live: Vec<bool>,
    /// The evaluated calls in live functions, ascending.
    pub sites: Vec<u32>,
    /// By the number of a node, what it may call, if it is such a call.
    pub callees: Vec<List<u32>>,
}

impl Calls {
    /// Whether a function is live: it is an entry of the project, or a call in a live function may call it. Takes no memory,
    /// as all that follow.
    pub fn is_live(&self, f: u32) -> bool
        ensures { result ≡ spec.is_live self.now f }
    {
        match self.live.get(f as usize).copied() {
            Some(is_live) => is_live,
            None => false,
        }
    }

    /// The evaluated calls that stand in live functions, ascending.
    pub fn sites(&self) -> &[u32]
        ensures { result.now ≡ self.now.sites.items }
    {
        self.sites.as_slice()
    }

    /// The functions that a site in a live function may call, ascending, each once; none for any other node.
    pub fn callees(&self, site: u32) -> &[u32]
        ensures { result.now ≡ spec.callees_of self.now site }
    {
        match self.callees.get(site as usize) {
            Some(row) => row.as_slice(),
            None => &[],
        }
    }
}

fn is_live_at(live: &[bool], f: u32) -> bool
    ensures { result ≡ reaching.live_at live.now f }
{
    match live.get(f as usize).copied() {
        Some(is_live) => is_live,
        None => false,
    }
}

fn any_live(live: &[bool], functions: &[u32]) -> bool
    ensures { result ≡ reaching.any_live live.now functions.now }
{
    for f in functions {
        if is_live_at(live, *f) {
            return true;
        }
    }
    false
}

// Whether a node stands in a live function.
fn stands_live(arena: &Arena, owners: &Owners, live: &[bool], s: u32) -> bool
    ensures { result ≡ reaching.stands_live arena.now owners.now live.now s }
{
    any_live(live, owners.functions_of(arena, s))
}

fn keep_if(kept: &mut Vec<(u32, u32)>, is_kept: bool, call: (u32, u32)) -> Result<(), Memory>
    ensures { OnOk result (kept.new.items ≡ reaching.kept_if is_kept call kept.old.items) }
{
    if is_kept {
        kept.push(call)?;
    }
    Ok(())
}

// Those of the calls that stand in live functions.
fn live_calls(
    alloc: Global,
    arena: &Arena,
    owners: &Owners,
    live: &[bool],
    calls: &[(u32, u32)],
) -> Result<Vec<(u32, u32)>, Memory>
    ensures { IfOk result (λ kept. kept.items ≡ reaching.live_calls arena.now owners.now live.now calls.now []) }
{
    let mut kept = Vec::new(alloc);
    for call in calls {
        let is_kept = stands_live(arena, owners, live, call.0);
        keep_if(&mut kept, is_kept, *call)?;
    }
    Ok(kept)
}

// Whether a node is an evaluated call in a live function.
fn is_live_site(arena: &Arena, graph: &Graph, owners: &Owners, live: &[bool], s: u32) -> bool
    ensures { result ≡ reaching.is_live_site arena.now graph.now owners.now live.now s }
{
    match graph.at(s) {
        Some(_) => stands_live(arena, owners, live, s),
        None => false,
    }
}

fn push_if(sites: &mut Vec<u32>, is_live: bool, s: u32) -> Result<(), Memory>
    ensures { OnOk result (sites.new.items ≡ reaching.pushed_if is_live s sites.old.items) }
{
    if is_live {
        sites.push(s)?;
    }
    Ok(())
}

// The evaluated calls in live functions among so many nodes.
fn live_sites(
    alloc: Global,
    arena: &Arena,
    nodes: u32,
    graph: &Graph,
    owners: &Owners,
    live: &[bool],
) -> Result<Vec<u32>, Memory>
    ensures ascends { IfOk result (λ sites. IsAscending sites.items) }
    ensures exact { IfOk result (λ sites. (s : ℕ) → Contains sites.items s
        ↔ reaching.IsSiteBelow arena.now graph.now owners.now live.now nodes s) }
{
    let mut sites = Vec::new(alloc);
    for s in 0..nodes {
        let is_live = is_live_site(arena, graph, owners, live, s);
        push_if(&mut sites, is_live, s)?;
    }
    arrange(&mut sites);
    Ok(sites)
}

/// Which functions of a program are live, and what the calls in them may call by the table of facts.
pub fn calls_of(
    alloc: Global,
    program: &Program,
    graph: &Graph,
    facts: &Facts,
) -> Result<Calls, Memory>
    ensures { IfOk result (λ calls. spec.AreCalls program.now graph.now facts.now calls) }
{
    let arena = program.arena();
    let nodes = arena.count()?;
    let functions = graph.definitions.count()?;
    if functions >= u32::MAX {
        return Err(Memory);
    }
    let owners = owners_of(alloc, arena, graph)?;
    let all = all_calls(alloc, nodes, graph, facts)?;
    let live = live_of(
        alloc,
        arena,
        &owners,
        functions,
        program.entries(),
        all.as_slice(),
    )?;
    let kept = live_calls(alloc, arena, &owners, live.as_slice(), all.as_slice())?;
    let callees = table_of(alloc, nodes, kept)?;
    let sites = live_sites(alloc, arena, nodes, graph, &owners, live.as_slice())?;
    Ok(Calls {
        live,
        sites,
        callees,
    })
}
