//! The theorem on the steps over calls and returns.
ghost use Rattle.std.specs.Prelude.{IfOk};
ghost use Rattle.cc_graph.specs.Graphs.{IsGraph};
ghost use Rattle.cc_across.specs.Crossing.{AreAcross};

use crate::calls::calls_of;
use crate::steps::next_across;
use cc_base::{List, Memory};
use cc_facts::Facts;
use cc_graph::Graph;
use cc_program::Program;
use std::alloc::Global;

/// For each point of a program the points that may come next, over calls and returns and within functions, where a call may
/// call what the facts say: exactly these, where the graph is the program's.
pub fn next_of(
    alloc: Global,
    program: &Program,
    graph: &Graph,
    facts: &Facts,
) -> Result<Vec<List<u32>>, Memory>
    ensures { IfOk result (λ next. IsGraph program.now graph.now
        → AreAcross program.now facts.now graph.now next.items) }
{
    let calls = calls_of(alloc, program, graph, facts)?;
    let next = next_across(alloc, program, graph, &calls)?;
    Ok(next)
}
