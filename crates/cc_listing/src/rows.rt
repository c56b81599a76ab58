// The rows of a program.
ghost use Rattle.std.specs.Prelude.{◌≡◌, ◌<◌, ◌≤◌, IfErr, IfOk, Err, length};
ghost use Rattle.cc_flows.specs.Sweeping.{StaysWithin};
ghost use Rattle.cc_rows.specs.declared.stop.Stop.TheVariants.{TooMany};
ghost use Rattle.cc_listing.specs.Gathered as by;
ghost use Rattle.cc_listing.specs.Answers as answers;
ghost use Rattle.cc_listing.specs.Listing as spec;

use crate::callings::{Callings, callings_of};
use crate::fault::{ListFault, of_stop};
use crate::gathered::{Accesses, Handings, accesses_of, handings_of};
use crate::stays::stays;
use cc_base::Memory;
use cc_facts::Facts;
use cc_graph::Graph;
use cc_lanes::Roads;
use cc_listed::{Calls, Tables, Uses};
use cc_listing_rows::listed_rows;
use cc_program::Program;
use cc_rows::{Row, Stop};
use cc_uses::tables_of;
use std::alloc::Global;

/// The most rows that a listing may have.
pub const MAX_ROWS: u32 = 200_000;

// All points below the count, ascending: an order in which to visit them inside functions.
fn all_points(alloc: Global, count: u32) -> Result<Vec<u32>, Memory> {
    let mut points = Vec::new(alloc);
    for point in 0..count {
        points.push(point)?;
    }
    Ok(points)
}

// The rows by what was gathered.
fn rows_by(
    alloc: Global,
    graph: &Graph,
    order_within: &[u32],
    callings: &Callings,
    accesses: &Accesses,
    handings: &Handings,
    tables: &Tables,
) -> Result<Vec<Row>, Stop>
    requires within { StaysWithin graph.now.next }
    requires points { length graph.now.next ≡ length callings.now.next.items }
    requires callings { by.AreUsable callings.now }
    requires formals { by.EnterBelow (length callings.now.next.items) handings.now.formals.items }
    ensures listed { IfOk result (λ rows. by.AreRowsBy graph.now callings.now accesses.now handings.now tables.now rows.items) }
    ensures few { IfOk result (λ rows. length rows.items ≤ 200000) }
    ensures many { result ≡ Err TooMany
        → by.AreMoreRowsBy graph.now callings.now accesses.now handings.now tables.now 200000 }
{
    let roads = Roads {
        next: callings.next.as_slice(),
        order: callings.order.as_slice(),
        within: graph.next.as_slice(),
        order_within,
    };
    let uses = Uses {
        writes: accesses.writes.as_slice(),
        given: accesses.given.as_slice(),
        passed: accesses.passed.as_slice(),
        reads: accesses.reads.as_slice(),
    };
    let calls = Calls {
        calls: handings.calls.as_slice(),
        arguments: handings.handed.arguments.as_slice(),
        formals: handings.formals.as_slice(),
        returns: handings.handed.returns.as_slice(),
        named: handings.handed.named.as_slice(),
    };
    listed_rows(
        alloc,
        roads,
        0,
        tables,
        callings.reach.as_slice(),
        uses,
        calls,
        200_000,
    )
}

/// The rows of a program, by its control points and its points-to facts.
pub fn rows_of(
    alloc: Global,
    program: &Program,
    graph: &Graph,
    facts: &Facts,
) -> Result<Vec<Row>, ListFault>
    ensures listed { IfOk result (λ rows. spec.AreRows program.now graph.now facts.now rows.items) }
    ensures few { IfOk result (λ rows. length rows.items ≤ 200000) }
    ensures fault { IfErr result (answers.RefusedBy program.now graph.now facts.now) }
{
    if !stays(graph.next.as_slice()) || graph.next.len() != u64::from(graph.len()) {
        return Err(ListFault::Internal);
    }
    let Some(callings) = callings_of(alloc, program, graph, facts)? else {
        return Err(ListFault::Internal);
    };
    let order = all_points(alloc, graph.len())?;
    let pairs = callings.pairs.as_slice();
    let accesses = accesses_of(
        alloc,
        program,
        graph,
        facts,
        callings.reach.as_slice(),
        pairs,
    )?;
    let handings = handings_of(
        alloc,
        program,
        graph,
        facts,
        callings.sites.as_slice(),
        pairs,
    )?;
    let tables = tables_of(alloc, program, facts)?;
    match rows_by(
        alloc,
        graph,
        order.as_slice(),
        &callings,
        &accesses,
        &handings,
        &tables,
    ) {
        Ok(rows) => Ok(rows),
        Err(stop) => Err(of_stop(stop)),
    }
}
