// The listing, and its table.
ghost use Rattle.std.specs.Prelude.{◌≤◌, IfErr, IfOk, length};
ghost use Rattle.cc_listing.specs.Answers as spec;

use crate::couplings::couplings_of;
use crate::fault::{ListFault, of_graph, of_points};
use crate::rows::rows_of;
use cc_facts::Facts;
use cc_graph::{Graph, lower};
use cc_meaning::{CouplingList, Listing};
use cc_points::solve;
use cc_program::Program;
use cc_tables::list_csv;
use std::alloc::Global;

// The points-to facts of a program.
fn facts_of(alloc: Global, program: &Program) -> Result<Facts, ListFault>
    ensures facts { IfOk result (spec.AreFacts program.now) }
    ensures fault { IfErr result (spec.RefusedFacts program.now) }
{
    match solve(alloc, program) {
        Ok(facts) => Ok(facts),
        Err(fault) => Err(of_points(fault)),
    }
}

// The couplings of a program, by its control points and its points-to facts.
fn couplings_by(
    alloc: Global,
    program: &Program,
    graph: &Graph,
    facts: &Facts,
) -> Result<CouplingList, ListFault>
    ensures listed { IfOk result (λ couplings. spec.AreListed program.now graph.now facts.now couplings) }
    ensures few { IfOk result (λ couplings. length couplings ≤ 200000) }
    ensures fault { IfErr result (spec.RefusedBy program.now graph.now facts.now) }
{
    match rows_of(alloc, program, graph, facts) {
        Ok(rows) => couplings_of(alloc, program, rows.as_slice()),
        Err(fault) => Err(fault),
    }
}

/// The couplings of a program, in order, where `graph` has its control points.
///
/// # Errors
///
/// The first that comes: too many points-to facts, or too many rows. `Memory` and `Internal` may come for any program.
pub fn listing_of(alloc: Global, program: &Program, graph: &Graph) -> Result<Listing, ListFault>
    ensures listed { IfOk result (λ listing. spec.IsListing program.now graph.now listing) }
    ensures fault { IfErr result (spec.Refused program.now graph.now) }
{
    match facts_of(alloc, program) {
        Ok(facts) => match couplings_by(alloc, program, graph, &facts) {
            Ok(couplings) => Ok(Listing::new(couplings)),
            Err(fault) => Err(fault),
        },
        Err(fault) => Err(fault),
    }
}

// The control points of a program.
fn graph_of(alloc: Global, program: &Program) -> Result<Graph, ListFault>
    ensures graph { IfOk result (spec.IsGraphOf program.now) }
    ensures fault { IfErr result (spec.RefusedPoints program.now) }
{
    match lower(alloc, program) {
        Ok(graph) => Ok(graph),
        Err(fault) => Err(of_graph(fault)),
    }
}

// The table of a program with these control points.
fn text_by(alloc: Global, program: &Program, graph: &Graph) -> Result<Vec<u8>, ListFault>
    ensures text { IfOk result (λ text. spec.IsTableBy program.now graph.now text.items) }
    ensures fault { IfErr result (spec.Refused program.now graph.now) }
{
    match listing_of(alloc, program, graph) {
        Ok(listing) => Ok(list_csv(alloc, program, &listing)?),
        Err(fault) => Err(fault),
    }
}

/// The table of the couplings of a program, as `list` prints it.
///
/// # Errors
///
/// The first that comes: too many control points, too many points-to facts, or too many rows.
pub fn list_text(alloc: Global, program: &Program) -> Result<Vec<u8>, ListFault>
    ensures text { IfOk result (λ text. spec.IsTable program.now text.items) }
    ensures fault { IfErr result (spec.RefusedWhole program.now) }
{
    match graph_of(alloc, program) {
        Ok(graph) => text_by(alloc, program, &graph),
        Err(fault) => Err(fault),
    }
}
