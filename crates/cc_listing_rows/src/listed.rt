// The listed rows.
ghost use Rattle.std.specs.Prelude.{◌≡◌, ◌<◌, ◌≤◌, map, Contains, IfOk, Err, length};
ghost use Rattle.std.specs.List.Sorted.{IsStrictlySortedBy};
ghost use Rattle.cc_rows.specs.Order.{row_cmp};
ghost use Rattle.cc_rows.specs.declared.stop.Stop.TheVariants.{TooMany};
ghost use Rattle.cc_flows.specs.Sweeping.{StaysWithin};
ghost use Rattle.cc_listed.specs.declared.calls.Formal.{Formal};
ghost use Rattle.cc_listing_shared.specs.Living as living;
ghost use Rattle.cc_listing_calls.specs.Views.{steps_of, accesses_of};
ghost use Rattle.cc_listing_rows.specs.ListedRows as spec;

use cc_blocks::Block;
use cc_flows::Found;
use cc_lanes::Roads;
use cc_listed::{Calls, Tables, Uses};
use cc_listing_calls::listed_calls;
use cc_listing_shared::{Routes, shared_rows};
use cc_rows::{Row, Stop, limited};
use std::alloc::{AllocError, Global};

// What was found as rows.
fn as_rows(alloc: Global, found: &[Found]) -> Result<Vec<Row>, AllocError>
    ensures { IfOk result (λ out. out.items ≡ map spec.shared_row found.now) }
{
    found
        .iter()
        .map(|found| Row::Shared {
            definition: found.definition,
            reader: found.reader,
            object: found.object,
        })
        .collect(alloc)
}

// The listed rows in any order.
fn found_rows(
    alloc: Global,
    roads: Roads,
    root: u32,
    tables: &Tables,
    reach: &[Block],
    uses: Uses,
    calls: Calls,
    most: usize,
) -> Result<Vec<Row>, Stop>
    requires next { StaysWithin roads.next.now }
    requires within { StaysWithin roads.within.now }
    requires points { length roads.within.now ≡ length roads.next.now }
    requires root { root < length roads.next.now }
    requires reach { living.IsReach roads.next.now root reach.now }
    requires formals { (formal : Formal) → Contains calls.formals.now formal
        → formal.entry < length roads.next.now }
    ensures listed { IfOk result (λ rows. spec.AreListed (steps_of roads.entry root) tables.now
        (accesses_of uses.entry) calls.entry rows.items) }
    ensures many { result ≡ Err TooMany → spec.HasMoreListed (steps_of roads.entry root) tables.now
        (accesses_of uses.entry) calls.entry most }
{
    let mut rows = listed_calls(alloc, roads, root, tables, reach, uses, calls, most)?;
    let routes = Routes {
        next: roads.next,
        order: roads.order,
        root,
    };
    let found = shared_rows(alloc, routes, tables, reach, uses, most)?;
    let more = as_rows(alloc, found.as_slice())?;
    rows.extend_from_slice(more.as_slice())?;
    Ok(rows)
}

/// The listed rows, ascending, each once: calls, shared objects, parameters and returns. That there are too many is told
/// where there are more than `most` in all.
///
/// `reach` says which points are reachable, as [`crate::reach_of`] does.
pub fn listed_rows(
    alloc: Global,
    roads: Roads,
    root: u32,
    tables: &Tables,
    reach: &[Block],
    uses: Uses,
    calls: Calls,
    most: usize,
) -> Result<Vec<Row>, Stop>
    requires next { StaysWithin roads.next.now }
    requires within { StaysWithin roads.within.now }
    requires points { length roads.within.now ≡ length roads.next.now }
    requires root { root < length roads.next.now }
    requires reach { living.IsReach roads.next.now root reach.now }
    requires formals { (formal : Formal) → Contains calls.formals.now formal
        → formal.entry < length roads.next.now }
    ensures listed { IfOk result (λ rows. spec.AreListed (steps_of roads.entry root) tables.now
        (accesses_of uses.entry) calls.entry rows.items) }
    ensures ascending { IfOk result (λ rows. IsStrictlySortedBy row_cmp rows.items) }
    ensures few { IfOk result (λ rows. length rows.items ≤ most) }
    ensures many { result ≡ Err TooMany → spec.HasMoreListed (steps_of roads.entry root) tables.now
        (accesses_of uses.entry) calls.entry most }
{
    let rows = found_rows(alloc, roads, root, tables, reach, uses, calls, most)?;
    limited(rows, most)
}
