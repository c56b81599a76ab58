// Which sites may call which functions.
ghost use Rattle.std.specs.Prelude.{◌≡◌, IfOk};
ghost use Rattle.cc_handing.specs.Sites as spec;

use crate::site::Site;
use cc_base::Memory;
use cc_graph::Graph;
use cc_listed::Call;
use cc_program::{FuncId, Program};
use cc_roles::is_used;
use std::alloc::Global;

// The node of the function of this number.
fn declarator(program: &Program, f: u32) -> Option<u32>
    ensures { result ≡ spec.declarator program.now f }
{
    match program.function(FuncId(f)) {
        Some(function) => Some(function.declarator),
        None => None,
    }
}

// The call that a site may make, if its point and the function are there.
fn call(program: &Program, graph: &Graph, site: Site) -> Option<Call>
    ensures { result ≡ spec.call program.now graph.now site }
{
    match (graph.at(site.site), declarator(program, site.callee)) {
        (Some(at), Some(callee)) => Some(Call {
            site: site.site,
            callee,
            at,
            used: is_used(program, site.site),
        }),
        _ => None,
    }
}

/// The call of each of these sites, if its point and the function are there. Fails where memory is wanting.
pub fn calls_of(
    alloc: Global,
    program: &Program,
    graph: &Graph,
    sites: &[Site],
) -> Result<Vec<Call>, Memory>
    ensures { IfOk result (λ out. out.items ≡ spec.calls program.now graph.now sites.now) }
{
    let out = sites
        .iter()
        .filter_map(|site| call(program, graph, *site))
        .collect(alloc)?;
    Ok(out)
}
