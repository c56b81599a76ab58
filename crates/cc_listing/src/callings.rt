// Who may call whom, and the steps that this gives.
ghost use Rattle.std.specs.Prelude.{◌≡◌, IfOk, IfSome, OnOk};
ghost use Rattle.cc_listing.specs.Callings as spec;
ghost use Rattle.cc_listing.specs.Sites as sites;

use cc_across::{Calls, calls_of, next_across};
use cc_base::{List, Memory};
use cc_blocks::Block;
use cc_facts::Facts;
use cc_flows::order_of;
use cc_graph::Graph;
use cc_handing::Site;
use cc_listing_shared::{Routes, reach_of};
use cc_program::Program;
use std::alloc::Global;

/// Who may call whom, and the steps that this gives.
#[derive(Drop)]
pub struct Callings {
    /// For each point those that come next.
    pub next: Vec<List<u32>>,
    /// An order in which to visit points.
    pub order: Vec<u32>,
    /// For each point a set that tells whether it is reachable.
    pub reach: Vec<Block>,
    /// The evaluated calls in live functions.
    pub sites: Vec<u32>,
    /// Each of them with each function that it may call.
    pub pairs: Vec<Site>,
}

fn put_callees(pairs: &mut Vec<Site>, site: u32, callees: &[u32]) -> Result<(), Memory>
    ensures { OnOk result (pairs.new.items ≡ sites.with_callees site callees.now pairs.old.items) }
{
    for callee in callees {
        pairs.push(Site {
            site,
            callee: *callee,
        })?;
    }
    Ok(())
}

// Each pair of a site in a live function and a function that it may call.
fn pairs_of(alloc: Global, calls: &Calls) -> Result<Vec<Site>, Memory>
    ensures { IfOk result (λ pairs. pairs.items ≡ sites.pairs_of calls.now) }
{
    let mut pairs = Vec::new(alloc);
    for site in calls.sites() {
        put_callees(&mut pairs, *site, calls.callees(*site))?;
    }
    Ok(pairs)
}

// Who may call whom by these calls, and the steps that they give; nothing where there is no point.
fn callings_by(
    alloc: Global,
    program: &Program,
    graph: &Graph,
    calls: &Calls,
) -> Result<Option<Callings>, Memory>
    ensures { IfOk result (λ made. IfSome made (spec.AreCallingsBy program.now graph.now calls.now)) }
{
    let next = next_across(alloc, program, graph, calls)?;
    if next.len() == 0 {
        return Ok(None);
    }
    let order = order_of(alloc, next.as_slice(), 0)?;
    let routes = Routes {
        next: next.as_slice(),
        order: order.as_slice(),
        root: 0,
    };
    let reach = reach_of(alloc, routes)?;
    let pairs = pairs_of(alloc, calls)?;
    let sites = Vec::from_slice(alloc, calls.sites())?;
    Ok(Some(Callings {
        next,
        order,
        reach,
        sites,
        pairs,
    }))
}

/// Who may call whom, and the steps that this gives; nothing where there is no point.
pub fn callings_of(
    alloc: Global,
    program: &Program,
    graph: &Graph,
    facts: &Facts,
) -> Result<Option<Callings>, Memory>
    ensures { IfOk result (λ made. IfSome made (spec.AreCallings program.now graph.now facts.now)) }
{
    let calls = calls_of(alloc, program, graph, facts)?;
    callings_by(alloc, program, graph, &calls)
}
