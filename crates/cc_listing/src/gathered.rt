// All that the rows are found from.
ghost use Rattle.std.specs.Prelude.{◌≡◌, filter, IfOk};
ghost use Rattle.cc_listing.specs.Gathered as spec;
ghost use Rattle.cc_listing.specs.Listing.{formals_in};

use cc_base::Memory;
use cc_blocks::Block;
use cc_facts::Facts;
use cc_graph::Graph;
use cc_handing::{Handed, Site, calls_of, formals_of, handed_of, passed_of};
use cc_listed::{Access, Call, Formal};
use cc_program::Program;
use cc_uses::{given_of, reads_of, writes_of};
use std::alloc::{AllocError, Global};

/// Who defines, writes and reads which slot at which point.
#[derive(Drop)]
pub struct Accesses {
    pub writes: Vec<Access>,
    pub given: Vec<Access>,
    pub passed: Vec<Access>,
    pub reads: Vec<Access>,
}

/// Who defines, writes and reads which slot at which point.
pub fn accesses_of(
    alloc: Global,
    program: &Program,
    graph: &Graph,
    facts: &Facts,
    reach: &[Block],
    pairs: &[Site],
) -> Result<Accesses, Memory>
    ensures { IfOk result (spec.AreAccesses program.now graph.now facts.now reach.now pairs.now) }
{
    let writes = writes_of(alloc, program, graph, facts)?;
    let given = given_of(alloc, program, graph, facts)?;
    let passed = passed_of(alloc, program, graph, facts.parts(), pairs, reach, 0)?;
    let reads = reads_of(alloc, program, graph, facts)?;
    Ok(Accesses {
        writes,
        given,
        passed,
        reads,
    })
}

/// Who may call whom, and what is handed over.
#[derive(Drop)]
pub struct Handings {
    pub calls: Vec<Call>,
    pub formals: Vec<Formal>,
    pub handed: Handed,
}

// Those of the formals whose function has its entry among so many points.
fn formals_within(alloc: Global, formals: &[Formal], points: u32) -> Result<Vec<Formal>, AllocError>
    ensures { IfOk result (λ out. out.items ≡ formals_in points formals.now) }
{
    formals
        .iter()
        .filter(|formal| formal.entry < points)
        .copied()
        .collect(alloc)
}

/// Who may call whom, and what is handed over.
pub fn handings_of(
    alloc: Global,
    program: &Program,
    graph: &Graph,
    facts: &Facts,
    sites: &[u32],
    pairs: &[Site],
) -> Result<Handings, Memory>
    ensures { IfOk result (spec.AreHandings program.now graph.now facts.now sites.now pairs.now) }
{
    let calls = calls_of(alloc, program, graph, pairs)?;
    let all = formals_of(alloc, program, graph, facts.parts())?;
    let formals = formals_within(alloc, all.as_slice(), graph.len())?;
    let handed = handed_of(alloc, program, graph, facts.parts(), sites)?;
    Ok(Handings {
        calls,
        formals,
        handed,
    })
}
